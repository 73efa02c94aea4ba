// Many clauses: some dropped, literals deleted from each.
ghost use Rattle.std.specs.Prelude.{◌≡◌, not, map, filter};
ghost use Rattle.laws.specs.Setting.{meets, strip};
ghost use Rattle.table.specs.Codes.{codes_of};

use crate::codes::{meeting, strip_codes};
use table::Clause;

// Drops the clauses that contain one of the literals of `set`; the others keep their order.
pub(crate) fn drop_meeting(clauses: &mut Vec<Clause>, set: &[u16])
    ensures { map codes_of clauses.new.items ≡ filter (λ C. not (meets set.now C)) (map codes_of clauses.old.items) }
{
    clauses.retain(|clause| !meeting(clause.codes(), set));
}

// Deletes the negations of the literals of `set` from each clause. A `for`, since nothing is proved of what a `for_each` changes.
pub(crate) fn strip_each(clauses: &mut Vec<Clause>, set: &[u16])
    ensures { map codes_of clauses.new.items ≡ map (strip set.now) (map codes_of clauses.old.items) }
{
    for clause in clauses.iter_mut() {
        strip_codes(&mut clause.codes, set);
    }
}
