// The table itself: lawful by its type.
ghost use Rattle.std.specs.Prelude.{◌≡◌, ◌≤◌, true, map, vec_len};
ghost use Rattle.laws.specs.Clauses.{lawful, literals};
ghost use Rattle.laws.specs.Lists.{every};
ghost use Rattle.table.specs.Codes.{codes_of};

use crate::clause::Clause;
use std::alloc::Global;

mod reads;
mod takes;
mod truth;

// How many clauses a table has at most.
pub const MOST_CLAUSES: usize = 1024;

// How many literals stand in all its clauses at most.
pub const MOST_LITERALS: usize = 8192;

// Clauses over the choices 0 to `last`, at positions 0, 1 and on (a formula in conjunctive normal form).
// Every table is lawful: in each clause the choices ascend and none stands twice, no code is above 2 × last + 1,
// and there are at most 1,024 clauses and 8,192 literals.
#[derive(Drop)]
pub struct Table {
    pub heap: Global,
    pub last: u8,
    pub clauses: Vec<Clause>,
    ghost few: { vec_len clauses ≤ 1024 },
    ghost small: { literals (map codes_of clauses.items) ≤ 8192 },
    ghost each: { every (lawful last) (map codes_of clauses.items) ≡ true },
}
