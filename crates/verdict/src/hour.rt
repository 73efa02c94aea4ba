// What a sheet file asks of the hour: its clauses, and its pins as clauses of one literal.
ghost use Rattle.std.specs.Prelude.{◌≡◌, Some};
ghost use Rattle.table.specs.Held.{tab_of};

use std::fmt;
use table::Table;

#[derive(Drop)]
pub struct Hour {
    pub(crate) clauses: Table,
    pub(crate) pins: Table,
    ghost same: { (tab_of clauses).last ≡ (tab_of pins).last },
}

// How many choices, clauses, literals and pins there are.
impl fmt::Display for Hour {
    ghost use Rattle.verdict.specs.Hours.{asked_of};
    ghost use Rattle.verdict.specs.Texts.{hour_words};

    ghost output = { λ h. Some (hour_words (asked_of h)) };

    fn fmt<W: fmt::Write>(&self, f: &mut fmt::Formatter<W>) -> fmt::Result {
        let choices = self.clauses.choice_count();
        let clauses = self.clauses.clause_count();
        let literals = self.clauses.literal_count();
        let pins = self.pins.clause_count();
        write!(
            f,
            "choices {choices}, clauses {clauses}, literals {literals}, pins {pins}"
        )
    }
}
