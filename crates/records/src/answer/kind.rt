// The kinds of answer records, by their tags.
ghost use Rattle.std.specs.Prelude.{◌≡◌, length, Ok};
ghost use Rattle.records.specs.Answers.{means, body_in, head_of};
ghost use Rattle.records.specs.Kinds.{kind_number, Decodes};

use crate::answer::{Answer, AnswerError, CHOICES, FAULT, WORK, read_fault, stray_byte};

#[derive(Clone, Copy, PartialEq, Eq, Debug)]
pub(crate) enum Kind {
    Plan = 0x21,
    NoPlan = 0x22,
    Refusal = 0x23,
}

impl TryFrom<u8> for Kind {
    type Error = AnswerError;

    ghost try_from_gives = { Decodes };

    fn try_from(tag: u8) -> Result<Kind, AnswerError> {
        match tag {
            0x21 => Ok(Kind::Plan),
            0x22 => Ok(Kind::NoPlan),
            0x23 => Ok(Kind::Refusal),
            _ => Err(AnswerError::Tag(tag)),
        }
    }
}

impl Kind {
    // Refuses a length that does not fit the kind.
    pub(crate) fn check_length(self, size: u16) -> Result<(), AnswerError>
        ensures value { result ≡ head_of (kind_number self) size }
    {
        let fitting = match self {
            Kind::Plan => WORK + 1..=WORK + CHOICES,
            Kind::NoPlan => WORK..=WORK,
            Kind::Refusal => FAULT..=FAULT,
        };
        if !fitting.contains(&usize::from(size)) {
            return Err(AnswerError::Length(size));
        }
        Ok(())
    }

    // What a body of a fitting length stands for. No `TryFrom`: its error could not come.
    pub(crate) fn read_body<'a>(self, body: &'a [u8]) -> Result<Answer<'a>, AnswerError>
        requires { head_of (kind_number self) (length body.now) ≡ Ok tt }
        ensures value { means result ≡ body_in (kind_number self) body.now }
    {
        match (self, body) {
            (Kind::Plan, &[a, b, c, d, ref plan @ ..]) => {
                // no `map_or`: a closure whose result lends the plan's bytes has no generated proof
                match stray_byte(plan) {
                    Some(i) => Err(AnswerError::PlanByte(i)),
                    None => Ok(Answer::Plan {
                        work: u32::from_be_bytes([a, b, c, d]),
                        plan,
                    }),
                }
            }
            (Kind::NoPlan, &[a, b, c, d]) => Ok(Answer::NoPlan {
                work: u32::from_be_bytes([a, b, c, d]),
            }),
            (Kind::Refusal, &[a, b, c, d, e, f, g]) => {
                Ok(Answer::Refusal(read_fault([a, b, c, d, e, f, g])))
            }
            // no other length fits
            _ => unreachable!(),
        }
    }
}
