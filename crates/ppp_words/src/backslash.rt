/// What a backslash outside comments leaves of itself. The octet behind it stands for itself in both forms.
#[derive(Clone, Copy, Debug, PartialEq, Eq)]
pub enum Backslash {
    /// Nothing, as in options files and secrets files (pppd(8)).
    Dropped,
    /// The backslash, as in chat files, whose words have escapes of their own (chat(8)).
    Kept,
}
