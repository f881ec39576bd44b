use ppp_outside::LineGot;

/// An answer of a line, and the place from which on its octets stand among those of the line.
#[derive(Clone, Copy, Debug, PartialEq, Eq)]
pub struct KeptAnswer {
    /// The place, from 0 on.
    pub at: usize,
    /// The answer.
    pub answer: LineGot,
}
