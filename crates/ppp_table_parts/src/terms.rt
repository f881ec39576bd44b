ghost use Rattle.std.specs.Prelude.{◌≡◌};
ghost use Rattle.ppp_table_parts.specs.Key.{same_disc, same_key, same_mrru, same_peer};

use ppp_base::{Disc, Mrru, Name};
use std::marker::Model;

/// With which terms a link asks for a bundle: who its peer is, and the MRRU pair where it asks for multilink.
#[derive(Debug, Drop)]
pub struct JoinTerms {
    pub peer: Option<Name>,
    pub disc: Option<Disc>,
    pub mrru: Option<Mrru>,
}

impl Model for JoinTerms {
    ghost use Rattle.ppp_table_parts.specs.Key.{Terms};

    ghost Value = { Terms };

    ghost view = { λ t. record { key = record { peer = t.peer; disc = t.disc }; mrru = t.mrru } };
}

// Whether two peers proved themselves by the same name, or both by none.
fn same_peer(a: &Option<Name>, b: &Option<Name>) -> bool
    ensures { result ≡ same_peer a.now b.now }
{
    match (a, b) {
        (None, None) => true,
        (Some(a), Some(b)) => a == b,
        _ => false,
    }
}

// Whether two peers have the same discriminator, or both none.
fn same_disc(a: &Option<Disc>, b: &Option<Disc>) -> bool
    ensures { result ≡ same_disc a.now b.now }
{
    match (a, b) {
        (None, None) => true,
        (Some(a), Some(b)) => a.class() == b.class() && a.address() == b.address(),
        _ => false,
    }
}

/// Whether two MRRU pairs are equal.
pub fn same_mrru(a: Mrru, b: Mrru) -> bool
    ensures { result ≡ same_mrru a b }
{
    a.ours() == b.ours() && a.theirs() == b.theirs()
}

impl JoinTerms {
    /// Whether two links name the same peer: by name and by discriminator.
    pub fn has_same_key(&self, other: &JoinTerms) -> bool
        ensures { result ≡ same_key self.now.key other.now.key }
    {
        same_peer(&self.peer, &other.peer) && same_disc(&self.disc, &other.disc)
    }
}
