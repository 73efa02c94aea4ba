// The codes in a clause's bytes.
ghost use Rattle.std.specs.Prelude.{◌≡◌, map, IfOk};
ghost use Rattle.records.specs.Bytes.{words, pair_word};

use std::alloc::{AllocError, Global};

// The codes that bytes stand for, two bytes each, the high byte first. An odd last byte is left out.
pub fn codes(heap: Global, bytes: &[u8]) -> Result<Vec<u16>, AllocError>
    ensures { IfOk result (λ v. v.items ≡ words bytes.now) }
{
    pairs(bytes)
        .iter()
        .map(|pair| u16::from_be_bytes(*pair))
        .collect(heap)
}

// The bytes by twos, but for an odd last one.
#[tactic(auto, using(crate::proofs::Words::words_pairs))]
fn pairs(bytes: &[u8]) -> &[[u8; 2]]
    ensures { words bytes.now ≡ map pair_word result.now }
{
    bytes.as_chunks::<2>().0
}
