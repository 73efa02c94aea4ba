// Whether a plan keeps what a table asks. A plan of fewer than last + 1 bytes is refused with 31.
ghost use Rattle.std.specs.Prelude.{◌≡◌, ◌+◌, not};
ghost use Rattle.std.specs.List.{slice_get};
ghost use Rattle.std.specs.Option.{option_map};
ghost use Rattle.laws.specs.Clauses.{true_in, all_true};
ghost use Rattle.laws.specs.Lists.{place};
ghost use Rattle.laws.specs.Plans.{broken};
ghost use Rattle.table.specs.Held.{clauses_of};
ghost use Rattle.table.specs.Judged.{judged, judged_literal, agreeing_of};

use super::Table;
use crate::checks::check_buffer;
use crate::literal::{agrees, top};
use laws::{Check, Fault, Layer};

impl Table {
    // Refuses a plan of fewer than last + 1 bytes.
    fn check_plan(&self, plan: &[u8]) -> Result<(), Fault>
        ensures { result ≡ judged self.now.last plan.now tt }
    {
        check_buffer(plan, self.choice_count())
    }

    // Whether a literal agrees with the plan. A code above 2 × last + 1 is refused with 12.
    pub fn agrees(&self, plan: &[u8], code: u16) -> Result<bool, Fault>
        ensures { result ≡ judged_literal self.now.last plan.now code }
    {
        self.check_plan(plan)?;
        if code > top(self.last) {
            return Err(Fault::new(Layer::Pile, Check::CodeRange));
        }
        Ok(agrees(plan, code))
    }

    // The first literal of the clause at a position that agrees with the plan; none past the end or if the clause is
    // false.
    pub fn agreeing(&self, plan: &[u8], at: usize) -> Result<Option<u16>, Fault>
        ensures { result ≡ judged self.now.last plan.now (agreeing_of plan.now (slice_get (clauses_of self.now) at)) }
    {
        self.check_plan(plan)?;
        Ok(
            self.clauses
                .get(at)
                .and_then(|clause| clause.agreeing(plan)),
        )
    }

    // Whether the plan makes the clause at a position true; none past the end.
    pub fn clause_true(&self, plan: &[u8], at: usize) -> Result<Option<bool>, Fault>
        ensures { result ≡ judged self.now.last plan.now (option_map (true_in plan.now) (slice_get (clauses_of self.now) at)) }
    {
        self.check_plan(plan)?;
        Ok(self.clauses.get(at).map(|clause| clause.is_true(plan)))
    }

    // The position of the first clause that the plan makes false.
    pub fn first_false(&self, plan: &[u8]) -> Result<Option<usize>, Fault>
        ensures { result ≡ judged self.now.last plan.now (place (λ C. not (true_in plan.now C)) (clauses_of self.now)) }
    {
        self.check_plan(plan)?;
        Ok(self.clauses.iter().position(|clause| !clause.is_true(plan)))
    }

    // Whether the plan makes every clause true.
    pub fn is_true(&self, plan: &[u8]) -> Result<bool, Fault>
        ensures { result ≡ judged self.now.last plan.now (all_true plan.now (clauses_of self.now)) }
    {
        self.check_plan(plan)?;
        Ok(self.clauses.iter().all(|clause| clause.is_true(plan)))
    }

    // How many clauses the plan makes false.
    pub fn broken(&self, plan: &[u8]) -> Result<usize, Fault>
        ensures { result ≡ judged self.now.last plan.now (broken plan.now (clauses_of self.now)) }
    {
        self.check_plan(plan)?;
        Ok(
            self.clauses
                .iter()
                .filter(|clause| !clause.is_true(plan))
                .count(),
        )
    }
}
