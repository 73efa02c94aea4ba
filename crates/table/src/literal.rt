// Literals: 2 × c says that choice c is taken, 2 × c + 1 that it is left out.
ghost use Rattle.std.specs.Prelude.{◌≡◌, ◌%◌, ◌==◌};
ghost use Rattle.laws.specs.Literals.{choice, holds, leaving, taking, top};

// The literal that says that a choice is taken (its positive literal).
pub fn taking(c: u8) -> u16
    ensures { result ≡ taking c }
{
    2 * c as u16
}

// The literal that says that a choice is left out (its negative literal).
pub fn leaving(c: u8) -> u16
    ensures { result ≡ leaving c }
{
    taking(c) + 1
}

// The largest code where the last choice is this.
pub fn top(last: u8) -> u16
    ensures { result ≡ top last }
{
    leaving(last)
}

// The choice that a literal speaks of (its variable).
pub fn choice_of(code: u16) -> u16
    ensures { result ≡ choice code }
{
    code / 2
}

// Whether a literal says that its choice is taken (is positive).
pub fn takes(code: u16) -> bool
    ensures { result ≡ (code % 2 == 0) }
{
    code % 2 == 0
}

// Whether a literal agrees with a plan; a choice past the plan's end counts as left out.
pub(crate) fn agrees(plan: &[u8], code: u16) -> bool
    ensures { result ≡ holds plan.now code }
{
    let c = choice_of(code) as usize;
    let byte = plan.get(c).copied().unwrap_or(0);
    if takes(code) { byte != 0 } else { byte == 0 }
}
