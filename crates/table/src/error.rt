// What a call can fail with: a refusal, or want of memory.
ghost use Rattle.std.specs.Prelude.{◌≡◌};
ghost use Rattle.table.specs.declared.error.Error.TheVariants.{Refused, Memory};

use laws::Fault;
use std::alloc::{AllocError, AllocFailed};

#[derive(Clone, Copy, PartialEq, Eq, Debug)]
pub enum Error {
    // a check of the rules failed
    Refused(Fault),
    // no memory was to be had; the call counts as not made
    Memory,
}

impl From<Fault> for Error {
    ghost from_gives = { λ f r. r ≡ Refused f };

    fn from(f: Fault) -> Error {
        Error::Refused(f)
    }
}

impl From<AllocError> for Error {
    ghost from_gives = { λ _ r. r ≡ Memory };

    fn from(_e: AllocError) -> Error {
        Error::Memory
    }
}

impl<T: Drop> From<AllocFailed<T>> for Error {
    ghost from_gives = { λ _ r. r ≡ Memory };

    fn from(_e: AllocFailed<T>) -> Error {
        Error::Memory
    }
}
