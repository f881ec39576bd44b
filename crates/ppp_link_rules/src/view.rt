use ppp_base::Unit;

/// What a link shows of itself.
#[derive(Clone, Copy, Debug, PartialEq, Eq)]
pub struct LinkView {
    /// The number of the session, 0 before the first attempt.
    pub session: u32,
    /// How many octets of its line were taken.
    pub taken: u64,
    /// The state of LCP, Initial 0 to Opened 9, and 0 where there is no LCP part.
    pub lcp_state: u8,
    /// The stay for which a bundle was asked.
    pub stay: Option<u32>,
    /// The unit whose bundle the link is a member of.
    pub member: Option<Unit>,
    /// In this stay the bundle has had its addresses agreed on.
    pub live: bool,
}
