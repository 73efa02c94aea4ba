// The checks that a call can fail, by the numbers that faults carry.
ghost use Rattle.std.specs.Prelude.{◌≡◌, Some};
ghost use Rattle.laws.specs.Numbers.{check_number, Decodes};
ghost use Rattle.laws.specs.Meanings.{meaning_of, unknown_words};

use std::error::Error;
use std::fmt;

#[derive(Clone, Copy, PartialEq, Eq, Debug)]
pub enum Check {
    // a clause has 1 to 256 codes
    ClauseSize = 11,
    // no code is above the largest that the last choice allows
    CodeRange = 12,
    // each choice stands once in a clause
    ChoiceOnce = 13,
    // a clause more may stand
    ClauseCount = 14,
    // so many literals may stand
    LiteralCount = 15,
    // the literal is not pinned yet
    NotPinned = 21,
    // a pin more may stand
    PinCount = 22,
    // the literal is pinned
    Pinned = 23,
    // a plan or a buffer has a byte for each choice
    PlanSize = 31,
    // the splitter's limit of splits is kept
    SplitCount = 41,
    // no more choices occur than the lister tries
    ListedChoices = 42,
    // a file has at most 65,535 bytes
    FileSize = 50,
    // a record is whole, and the end record is there
    RecordWhole = 51,
    // a record's tag is known
    RecordTag = 52,
    // the header stands first and nowhere else
    HeaderFirst = 53,
    // a record's length fits its tag
    RecordLength = 54,
    // nothing stands behind the end record
    EndLast = 55,
    // a buffer holds the file
    FileBuffer = 56,
}

// A number that no check has.
#[derive(Clone, Copy, PartialEq, Eq, Debug)]
pub struct UnknownCheck(pub u8);

impl From<Check> for u8 {
    ghost from_gives = { λ c r. r ≡ check_number c };

    fn from(check: Check) -> u8 {
        check as u8
    }
}

impl TryFrom<u8> for Check {
    type Error = UnknownCheck;

    ghost try_from_gives = { Decodes };

    fn try_from(number: u8) -> Result<Check, UnknownCheck> {
        match number {
            11 => Ok(Check::ClauseSize),
            12 => Ok(Check::CodeRange),
            13 => Ok(Check::ChoiceOnce),
            14 => Ok(Check::ClauseCount),
            15 => Ok(Check::LiteralCount),
            21 => Ok(Check::NotPinned),
            22 => Ok(Check::PinCount),
            23 => Ok(Check::Pinned),
            31 => Ok(Check::PlanSize),
            41 => Ok(Check::SplitCount),
            42 => Ok(Check::ListedChoices),
            50 => Ok(Check::FileSize),
            51 => Ok(Check::RecordWhole),
            52 => Ok(Check::RecordTag),
            53 => Ok(Check::HeaderFirst),
            54 => Ok(Check::RecordLength),
            55 => Ok(Check::EndLast),
            56 => Ok(Check::FileBuffer),
            _ => Err(UnknownCheck(number)),
        }
    }
}

// What it means that the check failed.
impl fmt::Display for Check {
    ghost output = { λ c. Some (meaning_of (check_number c)) };

    fn fmt<W: fmt::Write>(&self, f: &mut fmt::Formatter<W>) -> fmt::Result {
        f.write_str(match self {
            Check::ClauseSize => "a clause has no code, or more than 256",
            Check::CodeRange => "a code is above the largest that the last choice allows",
            Check::ChoiceOnce => "a choice stands twice in one clause",
            Check::ClauseCount => "no more clauses may stand",
            Check::LiteralCount => "no more literals may stand",
            Check::NotPinned => "the literal is pinned already",
            Check::PinCount => "no more pins may stand",
            Check::Pinned => "the literal is not pinned",
            Check::PlanSize => "the plan's buffer is shorter than one byte for each choice",
            Check::SplitCount => "the splitter's limit of splits ran out",
            Check::ListedChoices => "more choices occur than the lister tries",
            Check::FileSize => "the file is longer than 65,535 bytes",
            Check::RecordWhole => "a record is cut short, or the end record is missing",
            Check::RecordTag => "a record's tag is unknown",
            Check::HeaderFirst => "the header is not first, or stands twice",
            Check::RecordLength => "a record's length does not fit its tag",
            Check::EndLast => "bytes stand behind the end record",
            Check::FileBuffer => "the buffer is too short for the file",
        })
    }
}

impl fmt::Display for UnknownCheck {
    ghost output = { λ _. Some unknown_words };

    fn fmt<W: fmt::Write>(&self, f: &mut fmt::Formatter<W>) -> fmt::Result {
        f.write_str("a number that this program does not know")
    }
}

impl Error for UnknownCheck {}
