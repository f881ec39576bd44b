/// Which addresses a peer may have.
#[derive(Clone, Copy, Debug, PartialEq, Eq)]
pub enum Allow {
    /// Any: it was not asked to prove itself.
    Any,
    /// Those of this line of the secrets of PAP.
    Pap(u32),
    /// Those of this line of the secrets of CHAP.
    Chap(u32),
}
