// Whether an answer keeps the hour.
ghost use Rattle.std.specs.Prelude.{◌≡◌, Some};
ghost use Rattle.records.specs.Answers.{answer_of};
ghost use Rattle.verdict.specs.Hours.{asked_of};
ghost use Rattle.verdict.specs.Judging.{judge, counted};
ghost use Rattle.verdict.specs.Texts.{verdict_words};

use crate::failure::Failure;
use crate::hour::Hour;
use records::Answer;
use std::fmt;

#[derive(Clone, Copy, PartialEq, Eq, Debug)]
pub enum Verdict {
    // the plan makes every clause and every pin true
    Keeps,
    // it makes so many of all of them false
    Breaks { broken: usize, of: usize },
    // there is no plan to hold
    Nothing,
}

impl fmt::Display for Verdict {
    ghost output = { λ v. Some (verdict_words v) };

    fn fmt<W: fmt::Write>(&self, f: &mut fmt::Formatter<W>) -> fmt::Result {
        match self {
            Verdict::Keeps => f.write_str("the plan keeps the sheet"),
            Verdict::Breaks { broken, of } => write!(f, "the plan breaks {broken} of {of}"),
            Verdict::Nothing => f.write_str("no plan, so there is nothing to hold"),
        }
    }
}

impl Hour {
    // Holds an answer against the clauses and pins. A plan that has not one byte for each choice is refused.
    pub fn hold(&self, answer: &Answer) -> Result<Verdict, Failure>
        ensures { result ≡ judge (asked_of self.now) (answer_of answer.now) }
    {
        let Answer::Plan { plan, .. } = answer else {
            return Ok(Verdict::Nothing);
        };
        let wants = self.clauses.choice_count();
        if plan.len() != wants {
            return Err(Failure::PlanLength {
                has: plan.len(),
                wants,
            });
        }
        let clauses = self.clauses.broken(plan)?;
        let pins = self.pins.broken(plan)?;
        let of = self.clauses.clause_count() + self.pins.clause_count();
        Ok(verdict_on(clauses + pins, of))
    }
}

// A plan keeps the hour if it breaks nothing.
fn verdict_on(broken: usize, of: usize) -> Verdict
    ensures { result ≡ counted broken of }
{
    if broken == 0 {
        Verdict::Keeps
    } else {
        Verdict::Breaks { broken, of }
    }
}
