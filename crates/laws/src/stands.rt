// The laws of this crate, each on the contract of a function: without its proof the crate is not built. They differ in their
// clause alone, which is no type parameter, so no generic function stands for them.
ghost use Rattle.laws.specs.Blocked.{BlockedLaw};
ghost use Rattle.laws.specs.Cases.{WorkedCases};
ghost use Rattle.laws.specs.Checked.{Checking, Placing, Taking};
ghost use Rattle.laws.specs.Clauses.{Truth, Lawfulness};
ghost use Rattle.laws.specs.Colour.{ColourLaw};
ghost use Rattle.laws.specs.Cover.{CoverLaw};
ghost use Rattle.laws.specs.Eliminate.{EliminateLaw};
ghost use Rattle.laws.specs.Lister.{ListerLaw};
ghost use Rattle.laws.specs.Literals.{Negation};
ghost use Rattle.laws.specs.Lone.{LoneLaw};
ghost use Rattle.laws.specs.NearMisses.{NearMisses};
ghost use Rattle.laws.specs.Piles.{PileLaw, LayerLaw};
ghost use Rattle.laws.specs.Plans.{Breakage};
ghost use Rattle.laws.specs.Rules.{Repetition};
ghost use Rattle.laws.specs.Sorted.{Sorting};
ghost use Rattle.laws.specs.Splitter.{SplitterLaw};
ghost use Rattle.laws.specs.Spots.{Spotting};
ghost use Rattle.laws.specs.Trim.{TrimLaw};

// A plan makes clauses true exactly if for every clause there is a literal that agrees with it.
pub fn truth_stands() -> u8
    ensures { Truth }
{
    0
}

// A literal and its negation speak of one choice, and of the two exactly one agrees with a plan.
pub fn negation_stands() -> u8
    ensures { Negation }
{
    0
}

// No false clause is counted, and none is found, exactly if the plan makes all clauses true; else the first is found.
pub fn breakage_stands() -> u8
    ensures { Breakage }
{
    0
}

// Lawful clauses are those whose codes are low enough and whose choices rise.
pub fn lawfulness_stands() -> u8
    ensures { Lawfulness }
{
    0
}

// Sorted codes are the same literals in ascending order.
pub fn sorting_stands() -> u8
    ensures { Sorting }
{
    0
}

// A clause is refused by the first check that fails, and taken if all pass.
pub fn checking_stands() -> u8
    ensures { Checking }
{
    0
}

// The place of a clause's refusal is below 256.
pub fn placing_stands() -> u8
    ensures { Placing }
{
    0
}

// A lawful table stays lawful with a clause that it does not refuse.
pub fn taking_stands() -> u8
    ensures { Taking }
{
    0
}

// The worked cases.
pub fn worked_cases_stand() -> u8
    ensures { WorkedCases }
{
    0
}

// Every rule whose steps are safe is a reduction when repeated: the run exists, is unique, and leaves no step.
pub fn repetition_stands<N>() -> u8
    ensures { Repetition N }
{
    0
}

// The spot found is the lowest position, and in its clause the first literal, that pass; else none passes.
pub fn spots_stand() -> u8
    ensures { Spotting }
{
    0
}

// Setting the literals of one-literal clauses is a reduction, and leaves none of them.
pub fn lone_stands() -> u8
    ensures { LoneLaw }
{
    0
}

// Removing covered clauses is a reduction, once is enough, and no clause then contains another.
pub fn cover_stands() -> u8
    ensures { CoverLaw }
{
    0
}

// Trimming literals is a reduction, and leaves none to be trimmed.
pub fn trim_stands() -> u8
    ensures { TrimLaw }
{
    0
}

// Removing blocked clauses is a reduction, and leaves no blocked clause.
pub fn blocked_stands() -> u8
    ensures { BlockedLaw }
{
    0
}

// Colour with any proper property is a reduction, leaves no colour step, and its three properties are proper.
pub fn colour_stands() -> u8
    ensures { ColourLaw }
{
    0
}

// Eliminating choices is a reduction, and leaves no choice that qualifies.
pub fn eliminate_stands() -> u8
    ensures { EliminateLaw }
{
    0
}

// The splitter's search exists, is unique and right, and it refuses exactly above its limit.
pub fn splitter_stands() -> u8
    ensures { SplitterLaw }
{
    0
}

// The lister finds the first plan in counting order, is right, and refuses exactly above 16 choices.
pub fn lister_stands() -> u8
    ensures { ListerLaw }
{
    0
}

// A pile of reductions over a solver is right, and its answer is the bottom's, brought up.
pub fn piles_stand() -> u8
    ensures { PileLaw }
{
    0
}

// A layer over any solver is a solver.
pub fn layer_stands() -> u8
    ensures { LayerLaw }
{
    0
}

// Rules that look right and are wrong: what a small table shows of each.
pub fn near_misses_stand() -> u8
    ensures { NearMisses }
{
    0
}
