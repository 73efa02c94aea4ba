// Reductions, solvers and piles: the traits by which each shows what it owes, the layer, and the repeated rule.
#![tactic(auto)]

mod answer;
mod layer;
mod raised;
mod reduction;
mod repeat;
mod rule;
mod solver;

pub use answer::Answer;
pub use layer::Layer;
pub use reduction::Reduction;
pub use repeat::Repeat;
pub use rule::Rule;
pub use solver::Solver;
