ghost use Rattle.std.specs.Prelude.{◌≡◌, IfSome, None, slice_get, true};
ghost use Rattle.ppp_mark.specs.Table.{is_kind};

use ppp_mark::{Log, Mark};
use ppp_trace::LineOctets;

/// What a step of the world did.
#[derive(Debug, Drop)]
pub struct WorldOut {
    /// Whether it was taken. Where it wasn't, nothing was run.
    pub taken: bool,
    /// The octets that were written.
    pub written: Option<LineOctets>,
}

impl WorldOut {
    /// A step that writes nothing.
    pub fn silent(taken: bool) -> WorldOut
        ensures { result ≡ record { taken = taken; written = None } }
    {
        WorldOut {
            taken,
            written: None,
        }
    }
}

// The mark at a place.
fn get(marks: &[Mark], at: usize) -> Option<Mark>
    ensures { result ≡ slice_get marks.now at }
{
    marks.get(at).copied()
}

/// The mark at a place of a log.
#[tactic(auto, using(crate::proofs::MarkLemmas::kind_in))]
pub fn mark_at(log: &Log, at: u32) -> Option<Mark>
    ensures { IfSome result (λ m. is_kind m.kind ≡ true) }
{
    get(log.marks(), at as usize)
}
