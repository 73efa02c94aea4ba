// Clauses that can be made true without harm (blocked clauses).
ghost use Rattle.std.specs.Prelude.{◌≡◌, not, ◌||◌};
ghost use Rattle.laws.specs.Blocked.{hinders, blocks};
ghost use Rattle.laws.specs.Lists.{has};
ghost use Rattle.laws.specs.Literals.{neg};
ghost use Rattle.table.specs.Held.{clauses_of};

use crate::codes::{negation_of, stands_in};
use crate::occurrence::Occurrence;
use table::Table;

impl Occurrence<'_> {
    // Whether `other` holds the negation of one of the codes other than the literal.
    fn is_hindered(&self, other: &[u16]) -> bool
        ensures { result ≡ hinders self.now.codes.now self.now.code other.now }
    {
        self.codes
            .iter()
            .any(|x| *x != self.code && stands_in(other, negation_of(*x)))
    }

    // Whether `other` lets the clause be blocked for the literal: it does not hold its negation, or it hinders.
    fn lets_block(&self, other: &[u16]) -> bool
        ensures { result ≡ (not (has (neg self.now.code) other.now) || hinders self.now.codes.now self.now.code other.now) }
    {
        !stands_in(other, negation_of(self.code)) || self.is_hindered(other)
    }
}

// Whether the codes, as a clause, are blocked for `code` in the table.
pub fn is_blocked(table: &Table, codes: &[u16], code: u16) -> bool
    ensures { result ≡ blocks (clauses_of table.now) codes.now code }
{
    let literal = Occurrence { codes, code };
    table
        .clauses
        .iter()
        .all(|clause| literal.lets_block(clause.codes()))
}
