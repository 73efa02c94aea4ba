// What a solver answered, in plain words.
ghost use Rattle.std.specs.Prelude.{◌≡◌, Some};
ghost use Rattle.std.specs.Option.{option_map};
ghost use Rattle.records.specs.Answers.{answer_of};
ghost use Rattle.verdict.specs.Texts.{plan_of, answer_words};

use crate::words::{Meaning, PlanWords};
use records::Answer;
use std::fmt;

#[derive(Clone, Copy)]
pub(crate) struct AnswerWords<'a> {
    pub(crate) answer: &'a Answer<'a>,
}

impl<'a> AnswerWords<'a> {
    // The plan, if the answer is one.
    pub(crate) fn plan(&self) -> Option<&'a [u8]>
        ensures { option_map (λ x. x.now) result ≡ plan_of (answer_of self.now.answer.now) }
    {
        match self.answer {
            Answer::Plan { plan, .. } => Some(*plan),
            _ => None,
        }
    }
}

impl fmt::Display for AnswerWords<'_> {
    ghost output = { λ a. Some (answer_words (answer_of a.answer.now)) };

    fn fmt<W: fmt::Write>(&self, f: &mut fmt::Formatter<W>) -> fmt::Result {
        match self.answer {
            Answer::Plan { work, plan } => {
                let words = PlanWords { plan };
                write!(f, "a plan, work {work}, taking{words}")
            }
            Answer::NoPlan { work } => write!(f, "none, work {work}"),
            Answer::Refusal(fault) => {
                let number = fault.number;
                let why = Meaning(number);
                write!(f, "refused, {fault}\n{number}: {why}")
            }
        }
    }
}
