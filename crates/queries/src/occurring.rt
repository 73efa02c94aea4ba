// How often literals stand in a table, and which choices do.
ghost use Rattle.std.specs.Prelude.{◌≡◌, IfOk};
ghost use Rattle.laws.specs.Occurring.{occurrences, occurring, occurring_count};
ghost use Rattle.table.specs.Held.{tab_of, clauses_of};

use crate::codes::stands_in;
use std::alloc::AllocError;
use table::Table;

// In how many clauses a literal stands.
pub fn count_of(table: &Table, code: u16) -> usize
    ensures { result ≡ occurrences code (clauses_of table.now) }
{
    table
        .clauses
        .iter()
        .filter(|clause| stands_in(clause.codes(), code))
        .count()
}

// How many choices occur.
pub fn occurring_count(table: &Table) -> usize
    ensures { result ≡ occurring_count (tab_of table.now) }
{
    (0..=table.last).filter(|c| table.occurs(*c)).count()
}

// The choices that occur, in ascending order.
pub fn occurring_choices(table: &Table) -> Result<Vec<u8>, AllocError>
    ensures { IfOk result (λ v. v.items ≡ occurring table.now.last (clauses_of table.now)) }
{
    (0..=table.last)
        .filter(|c| table.occurs(*c))
        .collect(table.heap)
}
