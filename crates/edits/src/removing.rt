// Clauses and literals taken away.
ghost use Rattle.std.specs.Prelude.{◌≡◌, [], ◌∷◌};
ghost use Rattle.std.specs.List.{remove};
ghost use Rattle.laws.specs.Literals.{leaving, taking};
ghost use Rattle.laws.specs.Resolving.{others};
ghost use Rattle.laws.specs.Trim.{deleted_at};
ghost use Rattle.table.specs.Held.{tab_of, clauses_of};

use crate::clauses::drop_meeting;
use crate::codes::strip_codes;
use queries::negation_of;
use table::{Table, leaving, taking};

// Removes the clause at a position; past the end nothing is.
pub fn remove_at(table: &mut Table, at: usize)
    ensures { tab_of table.new ≡ record { last = (tab_of table.old).last; clauses = remove (clauses_of table.old) at } }
{
    if at < table.clauses.len() {
        let _gone = table.clauses.remove(at);
    }
}

// Deletes a literal from the clause at a position; past the end, or if it does not stand there, nothing is.
pub fn delete_at(table: &mut Table, at: usize, code: u16)
    ensures { tab_of table.new ≡ record { last = (tab_of table.old).last; clauses = deleted_at at code (clauses_of table.old) } }
{
    if at < table.clauses.len() {
        strip_codes(&mut table.clauses[at].codes, &[negation_of(code)]);
    }
}

// The two literals of a choice.
fn literals_of(c: u8) -> [u16; 2]
    ensures { result ≡ taking c ∷ leaving c ∷ [] }
{
    [taking(c), leaving(c)]
}

// Drops every clause that speaks of a choice.
pub fn drop_choice(table: &mut Table, c: u8)
    ensures { tab_of table.new ≡ record { last = (tab_of table.old).last; clauses = others c (clauses_of table.old) } }
{
    drop_meeting(&mut table.clauses, &literals_of(c));
}
