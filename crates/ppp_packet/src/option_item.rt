use crate::body::ItemBody;

/// An option (RFC 1661, section 6).
#[derive(Debug, Default, PartialEq, Eq, Drop)]
pub struct OptionItem {
    /// Its type.
    pub kind: u8,
    /// The data behind its length.
    pub body: ItemBody,
}
