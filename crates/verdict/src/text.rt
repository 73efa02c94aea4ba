// The text of an audit: the sheet's size, a line for each clause and pin, the answer, and the verdict.
ghost use Rattle.std.specs.Prelude.{◌≡◌, IfOk, string_bytes};
ghost use Rattle.records.specs.Answers.{answer_of};
ghost use Rattle.verdict.specs.Hours.{asked_of};
ghost use Rattle.verdict.specs.Texts.{Long, plan_of, report_text};

use crate::answer_words::AnswerWords;
use crate::hour::Hour;
use crate::lines::Lines;
use crate::verdict::Verdict;
use records::Answer;
use std::alloc::{AllocError, Global};

// The whole text, the one `String` that a report makes.
pub(crate) fn text_of(
    heap: Global,
    hour: &Hour,
    answer: &Answer,
    verdict: Verdict,
) -> Result<String, AllocError>
    requires { Long (asked_of hour.now).clauses.last (plan_of (answer_of answer.now)) }
    ensures { IfOk result (λ s. string_bytes s ≡ report_text (asked_of hour.now) (answer_of answer.now) verdict) }
{
    let words = AnswerWords { answer };
    let plan = words.plan();
    let clauses = Lines {
        kind: "clause",
        table: &hour.clauses,
        plan,
    };
    let pins = Lines {
        kind: "pin",
        table: &hour.pins,
        plan,
    };
    format!(in heap; "sheet: {hour}\n{clauses}{pins}answer: {words}\nverdict: {verdict}\n")
}
