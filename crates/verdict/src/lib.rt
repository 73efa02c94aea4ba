// Holds a plan against a sheet file, clause by clause and pin by pin, and says so in plain words.
#![tactic(auto)]

mod answer_words;
mod failure;
mod hour;
mod lines;
mod load;
mod report;
mod stands;
mod text;
mod verdict;
mod words;

pub use failure::Failure;
pub use hour::Hour;
pub use report::{Report, audit};
pub use stands::loading_stands;
pub use verdict::Verdict;
