// Clauses of one literal.
ghost use Rattle.std.specs.Prelude.{◌≡◌};
ghost use Rattle.laws.specs.Lone.{lone_in};
ghost use Rattle.table.specs.Held.{clauses_of};

use table::Table;

// The literal of the first clause that has just one.
pub fn first_lone(table: &Table) -> Option<u16>
    ensures { result ≡ lone_in (clauses_of table.now) }
{
    table
        .clauses
        .iter()
        .find_map(|clause| match clause.codes() {
            [only] => Some(*only),
            _ => None,
        })
}
