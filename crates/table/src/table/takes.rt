// How a table begins, and how it takes a clause.
ghost use Rattle.std.specs.Prelude.{◌≡◌};
ghost use Rattle.laws.specs.Tables.{empty};
ghost use Rattle.table.specs.Held.{tab_of, Taken};

use super::{MOST_CLAUSES, MOST_LITERALS, Table};
use crate::checks::{Limits, check_codes};
use crate::clause::Clause;
use crate::error::Error;
use laws::Layer;
use std::alloc::Global;

impl Table {
    // The table without clauses for the choices 0 to `last`.
    pub fn new(heap: Global, last: u8) -> Table
        ensures { tab_of result ≡ empty last }
    {
        Table {
            heap,
            last,
            clauses: Vec::new(heap),
        }
    }

    // One clause more, its codes in ascending order, or the first of the checks 11 to 15 that fails.
    // A refusal and want of memory leave the table.
    pub fn add(&mut self, codes: &[u16]) -> Result<(), Error>
        ensures came { Taken (tab_of self.old) codes.now result (tab_of self.new) }
    {
        let most = Limits {
            layer: Layer::Pile,
            clauses: MOST_CLAUSES,
            literals: MOST_LITERALS,
        };
        check_codes(
            codes,
            self.last,
            self.clause_count(),
            self.literal_count(),
            &most,
        )?;
        let clause = Clause::sorted(self.heap, codes)?;
        self.clauses.push(clause)?;
        Ok(())
    }
}
