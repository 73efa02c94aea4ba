// What a table holds.
ghost use Rattle.std.specs.Prelude.{◌≡◌, ◌+◌, length};
ghost use Rattle.std.specs.List.{slice_get};
ghost use Rattle.std.specs.Option.{option_map};
ghost use Rattle.laws.specs.Clauses.{literals};
ghost use Rattle.laws.specs.Tables.{Lawful, occurs_in};
ghost use Rattle.table.specs.Codes.{codes_of};
ghost use Rattle.table.specs.Held.{tab_of, clauses_of};

use super::Table;
use crate::clause::Clause;

impl Table {
    // The last choice.
    pub fn last(&self) -> u8
        ensures value { result ≡ (tab_of self.now).last }
        ensures lawful { Lawful (tab_of self.now) }
    {
        self.last
    }

    // How many choices there are, from 0 to the last.
    pub fn choice_count(&self) -> usize
        ensures count { result ≡ (tab_of self.now).last + 1 }
        ensures lawful { Lawful (tab_of self.now) }
    {
        usize::from(self.last) + 1
    }

    // How many clauses there are.
    pub fn clause_count(&self) -> usize
        ensures { result ≡ length (clauses_of self.now) }
    {
        self.clauses.len()
    }

    // How many literals stand in all clauses.
    pub fn literal_count(&self) -> usize
        ensures { result ≡ literals (clauses_of self.now) }
    {
        self.clauses.iter().map(|clause| clause.codes().len()).sum()
    }

    // The clause at a position, or none past the end.
    pub fn clause(&self, at: usize) -> Option<&Clause>
        ensures { option_map (λ C. codes_of C.now) result ≡ slice_get (clauses_of self.now) at }
    {
        self.clauses.get(at)
    }

    // Whether a clause contains a literal of choice `c`.
    pub fn occurs(&self, c: u8) -> bool
        ensures { result ≡ occurs_in c (clauses_of self.now) }
    {
        self.clauses.iter().any(|clause| clause.speaks_of(c as u16))
    }
}
