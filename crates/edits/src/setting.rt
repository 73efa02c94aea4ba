// Literals set: each clause that contains one goes, and their negations are deleted from the others.
ghost use Rattle.std.specs.Prelude.{◌≡◌};
ghost use Rattle.laws.specs.Setting.{assigned, with_set};
ghost use Rattle.table.specs.Held.{tab_of};

use crate::clauses::{drop_meeting, strip_each};
use table::Table;

// Sets the literals, all at once.
pub fn set_all(table: &mut Table, codes: &[u16])
    ensures { tab_of table.new ≡ assigned codes.now (tab_of table.old) }
{
    drop_meeting(&mut table.clauses, codes);
    strip_each(&mut table.clauses, codes);
}

// Sets one literal.
pub fn set(table: &mut Table, code: u16)
    ensures { tab_of table.new ≡ with_set code (tab_of table.old) }
{
    set_all(table, &[code]);
}
