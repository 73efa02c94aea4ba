// The checks that a clause meets before it is taken, in their order, and the check of a plan's length.
ghost use Rattle.std.specs.Prelude.{◌≡◌, [], nat_lt};
ghost use Rattle.laws.specs.Checks.{refusal, repeat_from};
ghost use Rattle.laws.specs.Faults.{passes};
ghost use Rattle.laws.specs.Lists.{place};
ghost use Rattle.table.specs.Judged.{enough};
ghost use Rattle.table.specs.Limited.{limits_of};

use crate::clause::stands;
use crate::literal::{choice_of, top};
use laws::{Check, Fault, Layer};

// Who checks, and how many clauses and literals may stand at most.
#[derive(Clone, Copy)]
pub(crate) struct Limits {
    pub(crate) layer: Layer,
    pub(crate) clauses: usize,
    pub(crate) literals: usize,
}

// Refuses with 31 a plan or a buffer of fewer bytes than are wanted.
pub fn check_buffer(plan: &[u8], bytes: usize) -> Result<(), Fault>
    ensures { result ≡ enough bytes plan.now }
{
    if plan.len() < bytes {
        return Err(Fault::new(Layer::Pile, Check::PlanSize));
    }
    Ok(())
}

// The place of the first code above `most`.
fn first_above(codes: &[u16], most: u16) -> Option<usize>
    ensures { result ≡ place (λ l. nat_lt most l) codes.now }
{
    codes.iter().position(|code| most < *code)
}

// The place of the first code whose choice stands among those before it.
fn first_repeated(codes: &[u16]) -> Option<usize>
    ensures { result ≡ repeat_from [] 0 codes.now }
{
    codes
        .iter()
        .enumerate()
        .position(|(i, code)| stands(&codes[0..i], choice_of(*code)))
}

// Whether codes pass as one more clause, where the last choice is `last` and so many clauses and literals stand:
// 1 to 256 codes (11), none above the largest (12), each choice once (13), a clause more (14), the literals more (15).
pub(crate) fn check_codes(
    codes: &[u16],
    last: u8,
    clauses: usize,
    literals: usize,
    most: &Limits,
) -> Result<(), Fault>
    ensures { result ≡ passes (refusal (limits_of most.now) last clauses literals codes.now) }
{
    if codes.is_empty() || codes.len() > 256 {
        return Err(Fault::new(most.layer, Check::ClauseSize));
    }
    if let Some(at) = first_above(codes, top(last)) {
        return Err(Fault {
            place: at as u16,
            ..Fault::new(most.layer, Check::CodeRange)
        });
    }
    if let Some(at) = first_repeated(codes) {
        return Err(Fault {
            place: at as u16,
            ..Fault::new(most.layer, Check::ChoiceOnce)
        });
    }
    if clauses >= most.clauses {
        return Err(Fault::new(most.layer, Check::ClauseCount));
    }
    if codes.len() > most.literals || literals > most.literals - codes.len() {
        return Err(Fault::new(most.layer, Check::LiteralCount));
    }
    Ok(())
}
