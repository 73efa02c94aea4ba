// The depth of a refusal.
ghost use Rattle.std.specs.Prelude.{◌≡◌};
ghost use Rattle.pile.specs.Came.{raised_result};

use crate::answer::Answer;
use laws::Fault;
use table::Error;

// A refusal from below is one deeper, resting at 255; all else passes as it is. No function of `table` that takes the change
// of the fault: it would be public, and have a `requires` for the closure.
pub(crate) fn raised(below: Result<Answer, Error>) -> Result<Answer, Error>
    ensures { result ≡ raised_result below }
{
    below.map_err(|error| match error {
        Error::Refused(fault) => Error::Refused(Fault {
            depth: fault.depth.saturating_add(1),
            ..fault
        }),
        Error::Memory => Error::Memory,
    })
}
