// A literal where it stands in a clause (an occurrence).

// The clause's codes, and the literal's code among them. The public functions take the two apart, and the table too, as their
// callers have them.
#[derive(Clone, Copy)]
pub(crate) struct Occurrence<'a> {
    pub(crate) codes: &'a [u16],
    pub(crate) code: u16,
}
