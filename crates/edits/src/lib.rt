// Edits of a table in place: clauses and literals are taken away, literals set, clauses appended. A table stays lawful by
// its type, and taking away cannot fail.
#![tactic(auto)]

mod clauses;
mod codes;
mod growing;
mod removing;
mod setting;

pub use growing::{append, copy};
pub use removing::{delete_at, drop_choice, remove_at};
pub use setting::{set, set_all};
