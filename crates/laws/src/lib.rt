// What choices, literals, clauses, plans, tables and faults are, and the laws that everything else stands on.
#![tactic(auto)]

mod check;
mod fault;
mod layer;
mod stands;

pub use check::{Check, UnknownCheck};
pub use fault::Fault;
pub use layer::Layer;
pub use stands::{
    blocked_stands, breakage_stands, checking_stands, colour_stands, cover_stands,
    eliminate_stands, lawfulness_stands, layer_stands, lister_stands, lone_stands,
    near_misses_stand, negation_stands, piles_stand, placing_stands, repetition_stands,
    sorting_stands, splitter_stands, spots_stand, taking_stands, trim_stands, truth_stands,
    worked_cases_stand,
};
