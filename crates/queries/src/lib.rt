// What reductions and solvers ask of clauses and of a table; nothing is changed.
#![tactic(auto)]

mod blocked;
mod codes;
mod lone;
mod occurrence;
mod occurring;
mod trimmed;

pub use blocked::is_blocked;
pub use codes::{lies_in, negation_of, stands_in};
pub use lone::first_lone;
pub use occurring::{count_of, occurring_choices, occurring_count};
pub use trimmed::is_trimmed;
