// The repeated rule: a reduction that takes the rule's steps until none is left, and uses the notes last first.
ghost use Rattle.std.specs.Prelude.{◌≡◌};
ghost use Rattle.laws.specs.Rules.{repeated, undo_all};
ghost use Rattle.pile.specs.Stepped.{newest_first, way_by};
ghost use Rattle.pile.specs.Ways.{fresh};
ghost use Rattle.laws.proofs.Repetition.{repetition};

use crate::reduction::Reduction;
use crate::rule::Rule;
use laws::Fault;
use std::alloc::{AllocError, Global};
use table::{Table, check_buffer};

#[derive(Drop)]
pub struct Repeat<R: Rule> {
    rule: R,
    heap: Global,
    // how many bytes the way back wants: none before the first table, then last + 1
    bytes: usize,
    // the notes of the last table, the oldest first
    notes: Vec<R::Note>,
}

impl<R: Rule> Repeat<R> {
    // A fresh one, which holds the way back that alters nothing.
    pub fn new(heap: Global, rule: R) -> Repeat<R>
        ensures rule { result.rule ≡ rule }
        ensures held { way_by (R.Rule.rule result.rule) R.Rule.noted result.bytes result.notes.items ≡ fresh }
    {
        Repeat {
            rule,
            heap,
            bytes: 0,
            notes: Vec::new(heap),
        }
    }
}

// Uses the notes on the way back, the last one first.
fn undo_all<R: Rule>(rule: &R, notes: &[R::Note], plan: &mut [u8])
    ensures { plan.new ≡ undo_all (R.Rule.rule rule.now) (newest_first R.Rule.noted notes.now) plan.old }
{
    for note in notes.iter().rev() {
        rule.undo(note, plan);
    }
}

impl<R: Rule> Reduction for Repeat<R> {
    ghost meaning = { λ s. repeated (R.Rule.rule s.rule) };

    ghost held = { λ s. way_by (R.Rule.rule s.rule) R.Rule.noted s.bytes s.notes.items };

    ghost points = { λ s t ok. (repetition (R.Rule.rule s.rule) (R.Rule.safe s.rule) t ok).points };

    // Takes steps until none is left. The notes are gathered apart, so that want of memory leaves the way that is held.
    fn reduce(&mut self, table: &mut Table) -> Result<(), AllocError> {
        let bytes = table.choice_count();
        let mut notes = Vec::new(self.heap);
        // no chain: a step can fail, and looks at the notes so far
        while let Some(note) = self.rule.step(self.heap, notes.as_slice(), table)? {
            notes.push(note)?;
        }
        self.bytes = bytes;
        self.notes = notes;
        Ok(())
    }

    fn rebuild(&self, plan: &mut [u8]) -> Result<(), Fault> {
        check_buffer(plan, self.bytes)?;
        undo_all(&self.rule, self.notes.as_slice(), &mut plan[0..self.bytes]);
        Ok(())
    }
}
