// What a solver answers where it does not refuse.

// A plan, which stands in the buffer, or none. Each carries its work, a count that each solver defines, so this is
// neither an `Option` nor a `Result`.
#[derive(Clone, Copy, PartialEq, Eq, Debug)]
pub enum Answer {
    Plan(u32),
    Never(u32),
}
