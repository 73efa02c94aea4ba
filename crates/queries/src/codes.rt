// Literals in lists of codes.
ghost use Rattle.std.specs.Prelude.{◌≡◌};
ghost use Rattle.laws.specs.Cover.{inside};
ghost use Rattle.laws.specs.Lists.{has};
ghost use Rattle.laws.specs.Literals.{neg};

use table::takes;

// Whether a code stands among the codes.
pub fn stands_in(codes: &[u16], code: u16) -> bool
    ensures { result ≡ has code codes.now }
{
    codes.contains(&code)
}

// The other literal of the same choice (its negation).
pub fn negation_of(code: u16) -> u16
    ensures { result ≡ neg code }
{
    if takes(code) { code + 1 } else { code - 1 }
}

// Whether every code of `inner` stands among those of `outer`.
pub fn lies_in(inner: &[u16], outer: &[u16]) -> bool
    ensures { result ≡ inside inner.now outer.now }
{
    inner.iter().all(|code| stands_in(outer, *code))
}
