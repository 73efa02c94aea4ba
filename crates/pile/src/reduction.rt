// Reductions: for each table a smaller table, and a way back from its plans to the table's.
ghost use Rattle.std.specs.Prelude.{◌≡◌};
ghost use Rattle.laws.specs.Reductions.{ReductionMeaning, Reduces};
ghost use Rattle.pile.specs.Ways.{Way, Reduced, rebuild_result, rebuilt};
ghost use Rattle.table.specs.Held.{tab_of};

use laws::Fault;
use std::alloc::AllocError;
use table::Table;

// A reduction has one meaning, which no call changes, and holds the way back of the last table that it reduced.
pub trait Reduction {
    ghost meaning: { Self → ReductionMeaning };

    ghost held: { Self → Way };

    // Turns the table into the smaller one, and holds the way back of it. Want of memory leaves the way that was held,
    // and of the table the last choice.
    fn reduce(&mut self, table: &mut Table) -> Result<(), AllocError>
        ensures came { Reduced (meaning self.old) (tab_of table.old) (held self.old) result (tab_of table.new) (held self.new) }
        ensures same { meaning self.new ≡ meaning self.old };

    // Applies the way back that is held to the front of the buffer; the rest stays. A buffer shorter than that way wants
    // is refused with 31, and stays.
    fn rebuild(&self, plan: &mut [u8]) -> Result<(), Fault>
        ensures came { result ≡ rebuild_result (held self.now) plan.old }
        ensures buffer { plan.new ≡ rebuilt (held self.now) plan.old };

    // What is owed: the three points, for every lawful table.
    ghost points: { (s : Self) → Reduces (meaning s) };
}
