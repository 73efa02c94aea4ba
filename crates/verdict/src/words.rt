// Literals, clauses, plans and refusals' numbers in plain words.
ghost use Rattle.std.specs.Prelude.{◌≡◌, Some, nat_eq};
ghost use Rattle.laws.specs.Lists.{every};
ghost use Rattle.laws.specs.Meanings.{meaning_of};
ghost use Rattle.verdict.specs.Words.{literal_words, literal_at, clause_words, truth_words, choice_at, plan_words};

use laws::Check;
use std::fmt;
use table::{choice_of, takes};

// A literal by its code, as `take 3` or `leave 7`.
#[derive(Clone, Copy)]
pub(crate) struct Literal(u16);

impl fmt::Display for Literal {
    ghost output = { λ l. Some (literal_words l.0) };

    fn fmt<W: fmt::Write>(&self, f: &mut fmt::Formatter<W>) -> fmt::Result {
        let c = choice_of(self.0);
        if takes(self.0) {
            write!(f, "take {c}")
        } else {
            write!(f, "leave {c}")
        }
    }
}

// The literal at a position of a clause; ` or ` stands before each but the first.
#[derive(Clone, Copy)]
struct LiteralAt {
    at: usize,
    code: u16,
}

impl fmt::Display for LiteralAt {
    ghost output = { λ l. Some (literal_at l.at l.code) };

    fn fmt<W: fmt::Write>(&self, f: &mut fmt::Formatter<W>) -> fmt::Result {
        let literal = Literal(self.code);
        if self.at == 0 {
            write!(f, "{literal}")
        } else {
            write!(f, " or {literal}")
        }
    }
}

// A clause, as `take 3 or leave 7`. No generic type for this, `PlanWords` and `Lines`: see `lines`.
#[derive(Clone, Copy)]
pub(crate) struct ClauseWords<'a> {
    pub(crate) codes: &'a [u16],
}

impl fmt::Display for ClauseWords<'_> {
    ghost output = { λ c. Some (clause_words c.codes.now) };

    fn fmt<W: fmt::Write>(&self, f: &mut fmt::Formatter<W>) -> fmt::Result {
        for (at, code) in self.codes.iter().enumerate() {
            let literal = LiteralAt { at, code: *code };
            write!(f, "{literal}")?;
        }
        Ok(())
    }
}

// What makes a clause true, or that nothing does.
#[derive(Clone, Copy)]
pub(crate) struct Truth {
    pub(crate) agreeing: Option<u16>,
}

impl fmt::Display for Truth {
    ghost output = { λ t. Some (truth_words t.agreeing) };

    fn fmt<W: fmt::Write>(&self, f: &mut fmt::Formatter<W>) -> fmt::Result {
        match self.agreeing {
            Some(code) => write!(f, "true by {}", Literal(code)),
            None => f.write_str("FALSE"),
        }
    }
}

// A choice behind a space if its byte of the plan says that it is taken, and else nothing.
#[derive(Clone, Copy)]
struct ChoiceAt {
    c: usize,
    byte: u8,
}

impl fmt::Display for ChoiceAt {
    ghost output = { λ x. Some (choice_at x.c x.byte) };

    fn fmt<W: fmt::Write>(&self, f: &mut fmt::Formatter<W>) -> fmt::Result {
        if self.byte == 0 {
            return Ok(());
        }
        write!(f, " {}", self.c)
    }
}

// Whether a plan takes no choice.
fn takes_nothing(plan: &[u8]) -> bool
    ensures { result ≡ every (λ b. nat_eq b 0) plan.now }
{
    plan.iter().all(|byte| *byte == 0)
}

// The choices that a plan takes, as ` 0 3`, or ` nothing`.
#[derive(Clone, Copy)]
pub(crate) struct PlanWords<'a> {
    pub(crate) plan: &'a [u8],
}

impl fmt::Display for PlanWords<'_> {
    ghost output = { λ p. Some (plan_words p.plan.now) };

    fn fmt<W: fmt::Write>(&self, f: &mut fmt::Formatter<W>) -> fmt::Result {
        if takes_nothing(self.plan) {
            return f.write_str(" nothing");
        }
        for (c, byte) in self.plan.iter().enumerate() {
            let choice = ChoiceAt { c, byte: *byte };
            write!(f, "{choice}")?;
        }
        Ok(())
    }
}

// What a refusal's number says.
#[derive(Clone, Copy)]
pub(crate) struct Meaning(pub(crate) u8);

impl fmt::Display for Meaning {
    ghost output = { λ m. Some (meaning_of m.0) };

    fn fmt<W: fmt::Write>(&self, f: &mut fmt::Formatter<W>) -> fmt::Result {
        match Check::try_from(self.0) {
            Ok(check) => write!(f, "{check}"),
            Err(unknown) => write!(f, "{unknown}"),
        }
    }
}
