// How many resolvents a choice has, and how many literals they hold together, without building them.
ghost use Rattle.std.specs.Prelude.{◌≡◌, ◌+◌, ◌≤◌, true, length};
ghost use Rattle.laws.specs.Clauses.{ascends, literals};
ghost use Rattle.laws.specs.Literals.{leaving};
ghost use Rattle.laws.specs.Resolving.{holding, resolvent, resolvents_of, resolvents};
ghost use Rattle.table.specs.Held.{clauses_of};

use crate::pair::have_resolvent;
use queries::stands_in;
use table::{Table, choice_of, taking};

// How many literals the resolvent of two clauses has.
fn resolvent_len(c: u16, first: &[u16], second: &[u16]) -> usize
    requires few_first { length first.now ≤ 8192 }
    requires few_second { length second.now ≤ 8192 }
    requires order { ascends second.now ≡ true }
    ensures value { result ≡ length (resolvent c first.now second.now) }
    ensures bound { result ≤ 16384 }
{
    let own = first.iter().filter(|code| choice_of(**code) != c).count();
    let added = second
        .iter()
        .filter(|code| choice_of(**code) != c && !stands_in(first, **code))
        .count();
    own + added
}

// The number and the literals of the resolvents of one clause with each clause of the table that leaves out `c`.
fn sizes_with(table: &Table, c: u8, first: &[u16]) -> (usize, usize)
    requires { length first.now ≤ 8192 }
    ensures number { result.0 ≡ length (resolvents_of c first.now (holding (leaving c) (clauses_of table.now))) }
    ensures literals { result.1 ≡ literals (resolvents_of c first.now (holding (leaving c) (clauses_of table.now))) }
    ensures few { result.0 ≤ 1024 }
    ensures small { result.1 ≤ 16777216 }
{
    let mut n = 0;
    let mut m = 0;
    // no `fold`: its closure does not know that the clause is the table's, so the sums' bounds did not prove
    for second in table.clauses.iter() {
        let codes = second.codes();
        if have_resolvent(c, first, codes) {
            n += 1;
            m += resolvent_len(c as u16, first, codes);
        }
    }
    (n, m)
}

// The number of the resolvents of choice `c`, and how many literals they hold together.
pub fn resolvents_size(table: &Table, c: u8) -> (usize, usize)
    ensures number { result.0 ≡ length (resolvents c (clauses_of table.now)) }
    ensures literals { result.1 ≡ literals (resolvents c (clauses_of table.now)) }
{
    let mut n = 0;
    let mut m = 0;
    // no `fold`: as above, its closure would not know that the clause is the table's
    for first in table.clauses.iter() {
        let codes = first.codes();
        if stands_in(codes, taking(c)) {
            let sizes = sizes_with(table, c, codes);
            n += sizes.0;
            m += sizes.1;
        }
    }
    (n, m)
}
