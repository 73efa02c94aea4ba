// A line for each clause of a table, with what a plan makes of it.
ghost use Rattle.std.specs.Prelude.{◌≡◌, ◌+◌, ◌≤◌, length, IfSome, Some};
ghost use Rattle.std.specs.List.{slice_get};
ghost use Rattle.std.specs.Option.{option_map};
ghost use Rattle.std.proofs.Props.{props};

use crate::words::{ClauseWords, Truth};
use std::fmt;
use table::Table;

// A line, as `clause 0: take 0 or take 1: true by take 0`; without a plan it ends before the second colon.
#[derive(Clone, Copy)]
struct Line<'a> {
    kind: &'a str,
    at: usize,
    codes: &'a [u16],
    truth: Option<Truth>,
}

impl fmt::Display for Line<'_> {
    ghost use Rattle.verdict.specs.Texts.{line_words};

    ghost output = { λ l. Some (line_words l.kind.now l.at l.codes.now (option_map (λ t. t.agreeing) l.truth)) };

    fn fmt<W: fmt::Write>(&self, f: &mut fmt::Formatter<W>) -> fmt::Result {
        let (kind, at, codes) = (self.kind, self.at, self.codes);
        let clause = ClauseWords { codes };
        match self.truth {
            Some(truth) => write!(f, "{kind} {at}: {clause}: {truth}\n"),
            None => write!(f, "{kind} {at}: {clause}\n"),
        }
    }
}

// The lines of a table's clauses, each with what the plan makes of it if there is one. The plan has a byte for each choice.
#[derive(Clone, Copy)]
pub(crate) struct Lines<'a> {
    pub(crate) kind: &'a str,
    pub(crate) table: &'a Table,
    pub(crate) plan: Option<&'a [u8]>,
    ghost long: { IfSome plan (λ p. table.now.last + 1 ≤ length p.now) } by { Prim.hlevel props },
}

impl Lines<'_> {
    ghost use Rattle.table.specs.Held.{clauses_of};
    ghost use Rattle.table.specs.Judged.{agreeing_of};

    // What the plan makes of the clause at a position. The table is asked, not the clause at hand: only it knows how long a plan
    // must be.
    fn truth(&self, at: usize) -> Option<Truth>
        ensures { option_map (λ t. t.agreeing) result ≡ option_map (λ p. agreeing_of p.now (slice_get (clauses_of self.now.table.now) at)) self.now.plan }
    {
        let plan = self.plan?;
        let Ok(agreeing) = self.table.agreeing(plan, at) else {
            unreachable!()
        };
        Some(Truth { agreeing })
    }
}

// No generic type for this and the two of `words` that write an item and its place one after another: it would need a trait
// with a ghost text for each kind of item, and save three lines.
impl fmt::Display for Lines<'_> {
    ghost use Rattle.table.specs.Held.{clauses_of};
    ghost use Rattle.verdict.specs.Texts.{table_lines};

    ghost output = { λ t. Some (table_lines t.kind.now (option_map (λ x. x.now) t.plan) (clauses_of t.table.now)) };

    fn fmt<W: fmt::Write>(&self, f: &mut fmt::Formatter<W>) -> fmt::Result {
        for (at, clause) in self.table.clauses.iter().enumerate() {
            let line = Line {
                kind: self.kind,
                at,
                codes: clause.codes(),
                truth: self.truth(at),
            };
            write!(f, "{line}")?;
        }
        Ok(())
    }
}
