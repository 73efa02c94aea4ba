// Solvers: for each table a plan, none, or a refusal.
ghost use Rattle.std.specs.Prelude.{◌≡◌};
ghost use Rattle.laws.specs.Piles.{Pile, answer_of};
ghost use Rattle.pile.specs.Sound.{Sound};
ghost use Rattle.pile.specs.Came.{Came};
ghost use Rattle.table.specs.Held.{tab_of};

use crate::answer::Answer;
use table::{Error, Table};

// A solver means a pile: its layers, none for a solver that stands alone, and the answers of its bottom.
pub trait Solver {
    ghost pile: { Self → Pile };

    // The answer for a table, its plan in the first last + 1 bytes of the buffer. A shorter buffer is refused first, with
    // 31. All other bytes stay, and after none, a refusal or want of memory every byte does. No call changes what the
    // solver means; of the table only the last choice is kept.
    fn solve(&mut self, table: &mut Table, plan: &mut [u8]) -> Result<Answer, Error>
        ensures came { Came (tab_of table.old) (answer_of (pile self.old)) plan.old result plan.new }
        ensures same { pile self.new ≡ pile self.old }
        ensures last { (tab_of table.new).last ≡ (tab_of table.old).last };

    // What is owed: each layer's reduction shows its three points; the bottom's plan makes the table true, and it says
    // none only if no plan does.
    ghost sound: { (s : Self) → Sound (pile s) };
}
