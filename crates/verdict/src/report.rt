// The audit from bytes to verdict and text.
ghost use Rattle.verdict.specs.Reported.{Reported};

use crate::failure::Failure;
use crate::hour::Hour;
use crate::text::text_of;
use crate::verdict::Verdict;
use records::Answer;
use std::alloc::Global;

// What an audit says, and its verdict.
#[derive(Drop)]
pub struct Report {
    pub text: String,
    pub verdict: Verdict,
}

// Holds the answer record against the sheet file.
pub fn audit(heap: Global, sheet: &[u8], answer: &[u8]) -> Result<Report, Failure>
    ensures { Reported sheet.now answer.now result }
{
    let hour = Hour::load(heap, sheet)?;
    let found = Answer::read(answer)?;
    let verdict = hour.hold(&found)?;
    let text = text_of(heap, &hour, &found, verdict)?;
    Ok(Report { text, verdict })
}
