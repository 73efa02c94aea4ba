// The sheet file, record by record and as a whole, and the answer record.
#![tactic(auto)]

mod answer;
mod decode;
mod reader;
mod record;
mod run;
mod standing;
mod tag;

pub use answer::{Answer, AnswerError, WriteError, answers_stand};
pub use decode::codes;
pub use reader::Reader;
pub use record::Record;
pub use run::scan;
pub use standing::reader_stands;
