// Resolvents of clauses: what two clauses that disagree on a choice say together without it.
#![tactic(auto)]

mod all;
mod pair;
mod sizes;

pub use all::resolvents;
pub use pair::{clashes, resolvent};
pub use sizes::resolvents_size;
