// The codes of one clause: whether one stands among some, whether they are lawful, and literals deleted in place.
ghost use Rattle.std.specs.Prelude.{◌≡◌, ◌&&◌, nat_lt, nat_le};
ghost use Rattle.laws.specs.Clauses.{lawful};
ghost use Rattle.laws.specs.Lists.{has};
ghost use Rattle.laws.specs.Literals.{choice};
ghost use Rattle.laws.specs.Setting.{meets, strip};

use queries::negation_of;
use table::{choice_of, top};

// Whether a code is one of `set`. `stands_in` looks at many places at once, which pays only where many are set; mostly it is one
// literal, or the two of a choice.
fn is_set(set: &[u16], code: u16) -> bool
    ensures { result ≡ has code set.now }
{
    match set {
        [one, other] => *one == code || *other == code,
        _ => set.iter().any(|one| *one == code),
    }
}

// Whether one of the codes stands among `set`.
pub(crate) fn meeting(codes: &[u16], set: &[u16]) -> bool
    ensures { result ≡ meets set.now codes.now }
{
    codes.iter().any(|code| is_set(set, *code))
}

// Deletes the codes whose negation stands among `set`; the others keep their order.
pub(crate) fn strip_codes(codes: &mut Vec<u16>, set: &[u16])
    ensures { codes.new.items ≡ strip set.now codes.old.items }
{
    codes.retain(|code| !is_set(set, negation_of(*code)));
}

// Whether a code goes on behind another in a clause: its choice is higher, and it is at most `most`.
fn goes_on(before: u16, code: u16, most: u16) -> bool
    ensures { result ≡ (nat_lt (choice before) (choice code) && nat_le code most) }
{
    choice_of(before) < choice_of(code) && code <= most
}

// Whether the codes are a clause of a table with this last choice: none above the largest, the choices ascend. One walk, which
// ends at the first code that breaks either, however many follow.
pub(crate) fn is_lawful(codes: &[u16], last: u8) -> bool
    ensures { result ≡ lawful last codes.now }
{
    let most = top(last);
    match codes {
        [] => true,
        [first, ..] => *first <= most && codes.is_sorted_by(|a, b| goes_on(*a, *b, most)),
    }
}
