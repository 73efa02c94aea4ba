// A clause: its literals. Those of a table are in ascending order, by the table's ghost fields.
ghost use Rattle.std.specs.Prelude.{◌≡◌, IfOk, nat_eq};
ghost use Rattle.laws.specs.Clauses.{sorted, true_in};
ghost use Rattle.laws.specs.Lists.{any, first};
ghost use Rattle.laws.specs.Literals.{choice, holds};
ghost use Rattle.table.specs.Codes.{codes_of, rank_of};

use crate::literal::{agrees, choice_of};
use std::alloc::{AllocError, Global};

#[derive(Clone, PartialEq, Eq, Debug, Drop)]
pub struct Clause {
    pub codes: Vec<u16>,
}

// How many codes at the front are at most `code`: where it goes in ascending order. No `partition_point`, which asks for codes in
// order: this is promised of codes in any order.
pub fn rank(codes: &[u16], code: u16) -> usize
    ensures { result ≡ rank_of code codes.now }
{
    codes.iter().take_while(|x| **x <= code).count()
}

impl Clause {
    // The clause of these codes, in ascending order.
    pub(crate) fn sorted(heap: Global, codes: &[u16]) -> Result<Clause, AllocError>
        ensures { IfOk result (λ C. codes_of C ≡ sorted codes.now) }
    {
        let mut codes = Vec::from_slice(heap, codes)?;
        codes.sort_unstable();
        Ok(Clause { codes })
    }

    // Its codes, in ascending order.
    pub fn codes(&self) -> &[u16]
        ensures { result.now ≡ codes_of self.now }
    {
        self.codes.as_slice()
    }

    // The first literal that agrees with the plan.
    pub(crate) fn agreeing(&self, plan: &[u8]) -> Option<u16>
        ensures { result ≡ first (holds plan.now) (codes_of self.now) }
    {
        self.codes.iter().copied().find(|code| agrees(plan, *code))
    }

    // Whether the plan makes the clause true.
    pub(crate) fn is_true(&self, plan: &[u8]) -> bool
        ensures { result ≡ true_in plan.now (codes_of self.now) }
    {
        self.codes.iter().any(|code| agrees(plan, *code))
    }

    // Whether one of the literals speaks of choice `c`.
    pub(crate) fn speaks_of(&self, c: u16) -> bool
        ensures { result ≡ any (λ l. nat_eq (choice l) c) (codes_of self.now) }
    {
        stands(self.codes.as_slice(), c)
    }
}

// Whether one of the codes speaks of choice `c`.
pub(crate) fn stands(codes: &[u16], c: u16) -> bool
    ensures { result ≡ any (λ l. nat_eq (choice l) c) codes.now }
{
    codes.iter().any(|code| choice_of(*code) == c)
}
