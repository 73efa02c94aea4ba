// The layer: one reduction over one solver, and itself a solver.
ghost use Rattle.std.specs.Prelude.{◌≡◌};
ghost use Rattle.std.proofs.lemmas.List.Elements.{All-cons};
ghost use Rattle.laws.specs.Piles.{over};
ghost use Rattle.laws.specs.Reductions.{Reduces};

use crate::answer::Answer;
use crate::raised::raised;
use crate::reduction::Reduction;
use crate::solver::Solver;
use table::{Error, Table, check_buffer};

#[derive(Drop)]
pub struct Layer<R, S> {
    reduction: R,
    solver: S,
}

impl<R, S> Layer<R, S> {
    // The layer of a reduction over a solver.
    pub fn new(reduction: R, solver: S) -> Layer<R, S>
        ensures reduction { result.reduction ≡ reduction }
        ensures solver { result.solver ≡ solver }
    {
        Layer { reduction, solver }
    }
}

impl<R: Reduction, S: Solver> Solver for Layer<R, S> {
    ghost pile = { λ l. over (R.Reduction.meaning l.reduction) (S.Solver.pile l.solver) };

    ghost sound = { λ s.
        let below = S.Solver.sound s.solver in
        record {
          layers = All-cons Reduces (R.Reduction.meaning s.reduction) (S.Solver.pile s.solver).layers (R.Reduction.points s.reduction) below.layers;
          bottom = below.bottom;
        } };

    // Checks the buffer, reduces, solves below, and leads a plan back.
    fn solve(&mut self, table: &mut Table, plan: &mut [u8]) -> Result<Answer, Error> {
        check_buffer(plan, table.choice_count())?;
        self.reduction.reduce(table)?;
        let answer = raised(self.solver.solve(table, plan))?;
        if let Answer::Plan(_) = answer {
            self.reduction.rebuild(plan)?;
        }
        Ok(answer)
    }
}
