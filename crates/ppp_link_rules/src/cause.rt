/// Why a session ends, as its mark has it.
#[derive(Clone, Copy, Debug, PartialEq, Eq)]
pub struct Cause {
    /// Its number, 1 to 16.
    pub number: u8,
    /// What belongs to it.
    pub detail: u16,
}
