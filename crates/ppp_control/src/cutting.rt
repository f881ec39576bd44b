ghost use Rattle.std.specs.Prelude.{◌≡◌, ◌≤◌, take, length};
ghost use Rattle.ppp_control.specs.Given.{cut_packet};

use ppp_base::{Frame, MOST_FRAME};
use ppp_packet::{Body, Packet};

/// As many octets as there are, up to a limit.
pub fn up_to(octets: &[u8], limit: usize) -> &[u8]
    ensures octets { result.now ≡ take limit octets.now }
    ensures few { length result.now ≤ limit }
{
    if octets.len() <= limit {
        octets
    } else {
        &octets[..limit]
    }
}

// What a Code-Reject of a packet carries, where it may have so many octets.
pub(crate) fn cut(packet: &Packet, limit: usize) -> Body
    ensures { result ≡ cut_packet limit packet.now }
{
    let data = packet.body.as_slice();
    let size = data.len() + 4;
    let limit = limit.min(MOST_FRAME);
    let mut frame = Frame::new();
    frame.append(&[
        packet.code,
        packet.id,
        (size / 256) as u8,
        (size % 256) as u8,
    ]);
    frame.append(data);
    let mut body = Body::new();
    body.append(up_to(frame.as_slice(), limit.saturating_sub(4)));
    body
}
