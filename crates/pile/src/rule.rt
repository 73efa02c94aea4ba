// Rules: one step of a reduction that is repeated until no step is left.
ghost use Rattle.std.specs.Prelude.{◌≡◌};
ghost use Rattle.laws.specs.Rules.{RuleMeaning, Safe};
ghost use Rattle.pile.specs.Stepped.{Stepped, newest_first};
ghost use Rattle.table.specs.Held.{tab_of};

use std::alloc::{AllocError, Global};
use table::Table;

// A rule means its next step, at the notes so far and a table, and how a note is used on the way back.
pub trait Rule {
    type Note: Drop;

    ghost Noted: { Type 0 };

    // what a note says
    ghost noted: { Self.Note → Noted };

    ghost rule: { Self → RuleMeaning Noted };

    // The next step at the notes so far, the oldest first: the table after it and its note, or none if no step is left.
    // Want of memory leaves of the table the last choice.
    fn step(
        &self,
        heap: Global,
        notes: &[Self::Note],
        table: &mut Table,
    ) -> Result<Option<Self::Note>, AllocError>
        ensures { Stepped (rule self.now) noted (newest_first noted notes.now) (tab_of table.old) result (tab_of table.new) };

    // Uses a note on the way back. A choice past the buffer's end is left alone.
    fn undo(&self, note: &Self::Note, plan: &mut [u8])
        ensures { plan.new ≡ (rule self.now).undo (noted note.now) plan.old };

    // What is owed: each step is safe.
    ghost safe: { (s : Self) → Safe (rule s) };
}
