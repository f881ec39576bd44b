use ppp_auth::AuthPhase;
use ppp_base::LinkId;
use ppp_hdlc::Deframer;
use ppp_lcp::Lcp;
use ppp_link_parts::out_ring::OutRing;
use ppp_link_parts::records::Records;
use ppp_link_parts::talk::Talk;
use ppp_link_parts::up_ring::UpRing;
use ppp_link_rules::counts::FrameCounts;
use ppp_link_rules::errand::Errand;
use ppp_option_words::LinkConfig;
use ppp_outside::Spawner;
use ppp_secrets::SecretsPair;

/// One link, without the errands' objects.
#[derive(Drop)]
pub struct LinkCore<S: Spawner> {
    pub id: LinkId,
    pub config: LinkConfig,
    pub secrets: SecretsPair,
    /// The greatest tick so far, in milliseconds.
    pub time: u64,
    /// The state of the generator of random words.
    pub words: u64,
    pub records: Records<S>,
    pub dial: Errand,
    pub failed_dials: u32,
    pub reading: Errand,
    pub writing: Errand,
    pub line_ended: bool,
    /// How many octets of the line were taken.
    pub taken: u64,
    pub talk: Talk,
    pub deframer: Deframer,
    pub counts: FrameCounts,
    pub lcp: Option<Lcp>,
    pub auth: Option<AuthPhase>,
    pub out: OutRing,
    pub up: UpRing,
}
