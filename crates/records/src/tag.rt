// The tags of a sheet file's records.
ghost use Rattle.std.specs.Prelude.{◌≡◌, true, length};
ghost use Rattle.records.specs.Entries.{entry_of};
ghost use Rattle.records.specs.Reading.{is_fit, says};
ghost use Rattle.records.specs.Tags.{tag_number, Decodes};

use crate::record::Record;
use laws::Check;

#[derive(Clone, Copy, PartialEq, Eq, Debug)]
pub(crate) enum Tag {
    Header = 0x01,
    Clause = 0x02,
    Pin = 0x03,
    End = 0x0F,
}

// The error is the check that a byte fails if it is no tag.
impl TryFrom<u8> for Tag {
    type Error = Check;

    ghost try_from_gives = { Decodes };

    fn try_from(byte: u8) -> Result<Tag, Check> {
        match byte {
            0x01 => Ok(Tag::Header),
            0x02 => Ok(Tag::Clause),
            0x03 => Ok(Tag::Pin),
            0x0F => Ok(Tag::End),
            _ => Err(Check::RecordTag),
        }
    }
}

impl Tag {
    // A body of so many bytes fits the tag.
    pub(crate) fn fits(self, size: usize) -> bool
        ensures { result ≡ is_fit (tag_number self) size }
    {
        match self {
            Tag::Header => size == 1,
            Tag::Clause => size % 2 == 0,
            Tag::Pin => size == 2,
            Tag::End => size == 0,
        }
    }

    // What a record says, by a body whose length fits.
    pub(crate) fn record<'a>(self, body: &'a [u8], offset: usize) -> Record<'a>
        requires { is_fit (tag_number self) (length body.now) ≡ true }
        ensures { entry_of result ≡ says (tag_number self) body.now offset }
    {
        match (self, body) {
            (Tag::Header, &[last]) => Record::Header(last),
            (Tag::Clause, codes) => Record::Clause { codes, offset },
            (Tag::Pin, &[high, low]) => Record::Pin(u16::from_be_bytes([high, low])),
            (Tag::End, &[]) => Record::End,
            // no other length fits
            _ => unreachable!(),
        }
    }
}
