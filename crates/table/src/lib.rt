// Lawful clause tables: what they take, what they hold, and whether a plan keeps them.
#![tactic(auto)]

mod checks;
mod clause;
mod error;
mod literal;
mod table;

pub use checks::check_buffer;
pub use clause::{Clause, rank};
pub use error::Error;
pub use literal::{choice_of, leaving, takes, taking, top};
pub use table::{MOST_CLAUSES, MOST_LITERALS, Table};
