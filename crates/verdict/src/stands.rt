// The laws of this crate, each on the contract of a function of its own, as in `laws`: the clause is no type parameter.
ghost use Rattle.verdict.specs.Loading.{LoadsOne};

// Every sheet file comes to one thing, an hour or a refusal, and to one only.
pub fn loading_stands() -> u8
    ensures { LoadsOne }
{
    0
}
