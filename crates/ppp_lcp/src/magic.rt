ghost use Rattle.std.specs.Prelude.{◌≡◌, ◌-◌, ◌≤◌, ◌++◌};
ghost use Rattle.std.specs.Int.{to_be_bytes};
ghost use Rattle.ppp_base.specs.declared.mrru.TheConstants.{DEFAULT_MRU};
ghost use Rattle.ppp_lcp.specs.Magic.{has_magic, cut_information};
ghost use Rattle.ppp_lcp.specs.Ours.{names_magic};

use ppp_control::{Verdict, up_to};
use ppp_packet::{Body, OptionList};

// Whether a magic number is among the items.
pub(crate) fn has_magic(items: &OptionList) -> bool
    ensures { result ≡ names_magic items.now }
{
    let mut walk = items.iter();
    let mut is_magic = false;
    'seeking: while let Some(seen) = walk.next() {
        is_magic = is_magic || (seen.kind == 5 && seen.body.len() == 4);
    }
    is_magic
}

// Whether the verdict is a Nak with a magic number.
pub(crate) fn names_magic(verdict: &Verdict) -> bool
    ensures { result ≡ has_magic verdict.now }
{
    match verdict {
        Verdict::Nak(items) => has_magic(items),
        _ => false,
    }
}

// What a Protocol-Reject carries, where it may have so many octets.
pub(crate) fn cut_information(protocol: u16, information: &[u8], limit: usize) -> Body
    requires { limit ≤ DEFAULT_MRU }
    ensures { result ≡ cut_information limit protocol information.now }
{
    let mut body = Body::new();
    body.append(&protocol.to_be_bytes());
    body.append(up_to(information, limit.saturating_sub(6)));
    body
}
