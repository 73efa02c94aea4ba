// Literals that another clause makes needless.
ghost use Rattle.std.specs.Prelude.{◌≡◌, ◌||◌, ◌==◌};
ghost use Rattle.laws.specs.Lists.{every, has};
ghost use Rattle.laws.specs.Trim.{shortens, trims};
ghost use Rattle.table.specs.Held.{clauses_of};

use crate::codes::{negation_of, stands_in};
use crate::occurrence::Occurrence;
use table::Table;

// Whether every code of `inner` other than `but` stands among those of `outer`.
fn rest_lies_in(inner: &[u16], but: u16, outer: &[u16]) -> bool
    ensures { result ≡ every (λ l. (l == but) || has l outer.now) inner.now }
{
    inner.iter().all(|x| *x == but || stands_in(outer, *x))
}

impl Occurrence<'_> {
    // Whether `other` holds the negation of the literal, and all its other literals stand among the codes.
    fn is_shortened(&self, other: &[u16]) -> bool
        ensures { result ≡ shortens self.now.codes.now self.now.code other.now }
    {
        let against = negation_of(self.code);
        stands_in(other, against) && rest_lies_in(other, against, self.codes)
    }
}

// Whether `code` can be trimmed from the codes: some clause of the table shortens them.
pub fn is_trimmed(table: &Table, codes: &[u16], code: u16) -> bool
    ensures { result ≡ trims (clauses_of table.now) codes.now code }
{
    let literal = Occurrence { codes, code };
    table
        .clauses
        .iter()
        .any(|clause| literal.is_shortened(clause.codes()))
}
