// A table copied, and one more clause.
ghost use Rattle.std.specs.Prelude.{◌≡◌, IfOk};
ghost use Rattle.table.specs.Codes.{codes_of};
ghost use Rattle.table.specs.Held.{tab_of};
ghost use Rattle.edits.specs.Growth.{Appended};

use crate::codes::is_lawful;
use std::alloc::{AllocError, Global};
use table::{Clause, MOST_CLAUSES, MOST_LITERALS, Table};

// A clause again, in memory of its own.
fn copied(heap: Global, clause: &Clause) -> Result<Clause, AllocError>
    ensures { IfOk result (λ C. codes_of C ≡ codes_of clause.now) }
{
    let codes = Vec::from_slice(heap, clause.codes())?;
    Ok(Clause { codes })
}

// The table again, in memory of its own. A table has ghost fields, so it can derive no `Clone`.
pub fn copy(table: &Table) -> Result<Table, AllocError>
    ensures { IfOk result (λ u. tab_of u ≡ tab_of table.now) }
{
    // no chain, since copying a clause can fail, and no `clone` of the whole: it takes the vector's memory at once and then that of
    // the clauses, an order that the allocator serves slower
    let mut clauses = Vec::new(table.heap);
    for clause in table.clauses.iter() {
        let own = copied(table.heap, clause)?;
        clauses.push(own)?;
    }
    Ok(Table {
        heap: table.heap,
        last: table.last,
        clauses,
    })
}

// The clause behind the others, and true, if the table stays lawful with it; otherwise false, and the table stays.
// Want of memory leaves the table. The answer is a `bool`, as of a set's `insert`, since nothing is refused here.
pub fn append(table: &mut Table, clause: Clause) -> Result<bool, AllocError>
    ensures came { Appended (tab_of table.old) (codes_of clause) result (tab_of table.new) }
{
    let size = clause.codes().len();
    if !is_lawful(clause.codes(), table.last) || table.clause_count() >= MOST_CLAUSES {
        return Ok(false);
    }
    if size > MOST_LITERALS || table.literal_count() > MOST_LITERALS - size {
        return Ok(false);
    }
    table.clauses.push(clause)?;
    Ok(true)
}
