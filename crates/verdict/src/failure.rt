// Why a sheet and an answer could not be held against each other.
ghost use Rattle.std.specs.Prelude.{◌≡◌};
ghost use Rattle.verdict.specs.declared.failure.Failure.TheVariants.{Answer, Memory, Sheet};
ghost use Rattle.verdict.specs.Failures.{from_error};

use crate::words::Meaning;
use laws::Fault;
use records::AnswerError;
use std::alloc::AllocError;
use std::{error, fmt};
use table::Error;

#[derive(Clone, Copy, PartialEq, Eq, Debug)]
pub enum Failure {
    // the sheet file is refused
    Sheet(Fault),
    // the answer file is no answer record
    Answer(AnswerError),
    // the plan has not one byte for each choice
    PlanLength { has: usize, wants: usize },
    // no memory was to be had
    Memory,
}

impl From<Fault> for Failure {
    ghost from_gives = { λ f r. r ≡ Sheet f };

    fn from(f: Fault) -> Failure {
        Failure::Sheet(f)
    }
}

impl From<Error> for Failure {
    ghost from_gives = { λ e r. r ≡ from_error e };

    fn from(e: Error) -> Failure {
        match e {
            Error::Refused(f) => Failure::Sheet(f),
            Error::Memory => Failure::Memory,
        }
    }
}

impl From<AnswerError> for Failure {
    ghost from_gives = { λ e r. r ≡ Answer e };

    fn from(e: AnswerError) -> Failure {
        Failure::Answer(e)
    }
}

impl From<AllocError> for Failure {
    ghost from_gives = { λ _ r. r ≡ Memory };

    fn from(_e: AllocError) -> Failure {
        Failure::Memory
    }
}

impl fmt::Display for Failure {
    fn fmt<W: fmt::Write>(&self, f: &mut fmt::Formatter<W>) -> fmt::Result {
        match self {
            Failure::Sheet(fault) => {
                let number = fault.number;
                let offset = fault.offset;
                let why = Meaning(number);
                write!(
                    f,
                    "the sheet file is refused with {number} at offset {offset}: {why}"
                )
            }
            Failure::Answer(e) => write!(f, "the answer file is broken: {e}"),
            Failure::PlanLength { has, wants } => {
                write!(f, "the plan has {has} bytes, and the sheet {wants} choices")
            }
            Failure::Memory => write!(f, "no memory was to be had"),
        }
    }
}

impl error::Error for Failure {}
