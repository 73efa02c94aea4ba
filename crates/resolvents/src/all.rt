// All resolvents of a choice. No struct of a table and a choice, here and in `sizes`: the public functions take them apart, and it
// would only be wrapped and unwrapped.
ghost use Rattle.std.specs.Prelude.{◌≡◌, ◌++◌, map, IfOk, OnOk};
ghost use Rattle.laws.specs.Literals.{leaving};
ghost use Rattle.laws.specs.Resolving.{holding, resolvents_of, resolvents as resolvents_by};
ghost use Rattle.table.specs.Codes.{codes_of};
ghost use Rattle.table.specs.Held.{clauses_of};

use crate::pair::{have_resolvent, resolvent};
use queries::stands_in;
use std::alloc::AllocError;
use table::{Clause, Table, taking};

// Pushes the resolvents of one clause with each clause of the table that leaves out `c`.
fn push_each(table: &Table, c: u8, first: &[u16], out: &mut Vec<Clause>) -> Result<(), AllocError>
    ensures { OnOk result (map codes_of out.new.items ≡ map codes_of out.old.items ++ resolvents_of c first.now (holding (leaving c) (clauses_of table.now))) }
{
    // no chain, here or below: a `try_collect` makes a vector for each clause, and one for all is wanted
    for second in table.clauses.iter() {
        let codes = second.codes();
        if have_resolvent(c, first, codes) {
            let clause = resolvent(table.heap, c as u16, first, codes)?;
            out.push(clause)?;
        }
    }
    Ok(())
}

// The resolvents of choice `c`: of each clause that takes it with each that leaves it out, in order; a pair that also
// clashes has none.
pub fn resolvents(table: &Table, c: u8) -> Result<Vec<Clause>, AllocError>
    ensures { IfOk result (λ v. map codes_of v.items ≡ resolvents_by c (clauses_of table.now)) }
{
    let mut out = Vec::new(table.heap);
    for first in table.clauses.iter() {
        let codes = first.codes();
        if stands_in(codes, taking(c)) {
            push_each(table, c, codes, &mut out)?;
        }
    }
    Ok(out)
}
