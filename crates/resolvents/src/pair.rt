// Two clauses: whether they clash, and their resolvent.
// No struct of `c`, `first` and `second`: the public functions take any choice of 16 bits, whose literals 16 bits may not hold, and
// those over a table one of 8, whose literals are looked for.
ghost use Rattle.std.specs.Prelude.{◌≡◌, not, ◌&&◌, IfOk, OnOk};
ghost use Rattle.laws.specs.Lists.{has};
ghost use Rattle.laws.specs.Literals.{leaving};
ghost use Rattle.laws.specs.Resolving.{apart, join, clash, resolvent as without_choice};
ghost use Rattle.table.specs.Codes.{codes_of};

use queries::{negation_of, stands_in};
use std::alloc::{AllocError, Global};
use table::{Clause, choice_of, leaving, rank};

// Whether the clauses disagree on a choice other than `c`.
pub fn clashes(c: u16, first: &[u16], second: &[u16]) -> bool
    ensures { result ≡ clash c first.now second.now }
{
    second.iter().any(|code| choice_of(*code) != c && stands_in(first, negation_of(*code)))
}

// Whether the second clause leaves out `c` and the two do not clash.
pub(crate) fn have_resolvent(c: u8, first: &[u16], second: &[u16]) -> bool
    ensures { result ≡ (has (leaving c) second.now && not (clash c first.now second.now)) }
{
    stands_in(second, leaving(c)) && !clashes(c as u16, first, second)
}

// The codes without those of choice `c`.
fn others_of(heap: Global, c: u16, codes: &[u16]) -> Result<Vec<u16>, AllocError>
    ensures { IfOk result (λ v. v.items ≡ apart c codes.now) }
{
    codes
        .iter()
        .copied()
        .filter(|code| choice_of(*code) != c)
        .collect(heap)
}

// One code more, at its place in ascending order, unless it stands there already. No `BTreeSet` and no `binary_search`: a
// resolvent is promised of codes in any order.
fn add_code(out: &mut Vec<u16>, code: u16) -> Result<(), AllocError>
    ensures { OnOk result (out.new.items ≡ join code out.old.items) }
{
    if stands_in(out.as_slice(), code) {
        return Ok(());
    }
    let at = rank(out.as_slice(), code);
    out.insert(at, code)?;
    Ok(())
}

// The literals of both clauses without choice `c`, in ascending order.
pub fn resolvent(heap: Global, c: u16, first: &[u16], second: &[u16]) -> Result<Clause, AllocError>
    ensures { IfOk result (λ C. codes_of C ≡ without_choice c first.now second.now) }
{
    let mut out = others_of(heap, c, first)?;
    // no chain: adding a code can fail
    for code in second.iter().rev() {
        if choice_of(*code) != c {
            add_code(&mut out, *code)?;
        }
    }
    Ok(Clause { codes: out })
}
