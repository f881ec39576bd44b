//! What a frame is looked at as, by its protocol and the phase of the link (RFC 1661, section 3).

ghost use Rattle.std.specs.Prelude.{◌≡◌};
ghost use Rattle.ppp_link_rules.specs.Phase.{Phase, has_pieces, kind_of, phase_by, treatment};
ghost use Rattle.ppp_link_hearing.specs.Heard.{kind_by, treatment_of};

use ppp_base::protocol;
use ppp_lcp::is_agreed;
use ppp_packet::Agreed;

/// Of which kind a protocol is.
#[derive(Clone, Copy, Debug, PartialEq, Eq)]
pub enum Kind {
    Lcp,
    /// A method of authentication that was agreed on.
    Auth,
    OtherAuth,
    Table,
    Unknown,
}

/// Whose a frame is.
#[derive(Clone, Copy, Debug, PartialEq, Eq)]
pub enum Way {
    Lcp,
    Auth,
    Table,
    /// Of a protocol that is rejected.
    Rejected,
    Discarded,
}

// Whether both ends agreed on multilink.
fn has_pieces(agreed: &Option<Agreed>) -> bool
    ensures { result ≡ has_pieces agreed.now }
{
    match agreed {
        Some(agreed) => agreed.mrru.is_some(),
        None => false,
    }
}

// The kind of a protocol.
fn kind_of(agreed: &Option<Agreed>, protocol: u16) -> Kind
    ensures { kind_by result ≡ kind_of agreed.now protocol }
{
    match protocol {
        protocol::LCP => Kind::Lcp,
        protocol::PAP | protocol::CHAP => {
            if is_agreed(protocol, agreed) {
                Kind::Auth
            } else {
                Kind::OtherAuth
            }
        }
        protocol::IP | protocol::IPCP => Kind::Table,
        protocol::MULTILINK => {
            if has_pieces(agreed) {
                Kind::Table
            } else {
                Kind::Unknown
            }
        }
        _ => Kind::Unknown,
    }
}

// What is looked at in which phase. Until LCP is in Opened only LCP's packets are, and until who must has proved itself those
// of an agreed method besides.
#[tactic(auto, using(crate::proofs::WayFacts::lcp_always, crate::proofs::WayFacts::auth_open, crate::proofs::WayFacts::auth_shut, crate::proofs::WayFacts::other_never, crate::proofs::WayFacts::table_then, crate::proofs::WayFacts::table_else, crate::proofs::WayFacts::unknown_then, crate::proofs::WayFacts::unknown_else))]
fn way_by(open_now: bool, passed: bool, kind: Kind) -> Way
    ensures { treatment_of result ≡ treatment (phase_by open_now passed) (kind_by kind) }
{
    let network = open_now && passed;
    match kind {
        Kind::Lcp => Way::Lcp,
        Kind::Auth if open_now => Way::Auth,
        Kind::Auth => Way::Discarded,
        Kind::OtherAuth => Way::Discarded,
        Kind::Table if network => Way::Table,
        Kind::Table => Way::Discarded,
        Kind::Unknown if network => Way::Rejected,
        Kind::Unknown => Way::Discarded,
    }
}

/// The way of a frame of this protocol.
pub fn way_of(open_now: bool, passed: bool, agreed: &Option<Agreed>, protocol: u16) -> Way
    ensures { treatment_of result ≡ Phase (phase_by open_now passed) agreed.now protocol }
{
    let kind = kind_of(agreed, protocol);
    way_by(open_now, passed, kind)
}
