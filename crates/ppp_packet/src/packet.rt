ghost use Rattle.std.specs.Prelude.{◌≡◌, ◌+◌, ◌<◌, ◌≤◌, ◌++◌, ◌↔◌, length, IsTrue, IfOk, IsErrOf};
ghost use Rattle.std.specs.Result.{result_ok};
ghost use Rattle.std.specs.Bool.{OnTrue, OnFalse};
ghost use Rattle.ppp_packet.specs.PacketOf.{PacketOf, HasBadLength, laid_packet, packet_in};
ghost use Rattle.ppp_packet.specs.declared.packet.Packet.{Packet};

use crate::body::Body;
use crate::fault::PacketFault;
use byteorder::{BigEndian, ByteOrder};
use ppp_base::{Frame, MOST_FRAME};

/// A control packet (RFC 1661, section 5).
#[derive(Debug, Default, PartialEq, Eq, Drop)]
pub struct Packet {
    /// What it is for: a request, an answer and so on.
    pub code: u8,
    /// By which an answer names its request.
    pub id: u8,
    /// The data behind the length.
    pub body: Body,
}

impl Packet {
    /// Reads a packet. Octets past its length are padding.
    pub fn read(bytes: &[u8]) -> Result<Packet, PacketFault>
        ensures ok { IfOk result (λ packet. PacketOf bytes.now packet) }
        ensures alone { (packet : Packet) → PacketOf bytes.now packet → result ≡ Ok packet }
        ensures function { result_ok result ≡ packet_in bytes.now }
        ensures short { IsErrOf result PacketFault.Short ↔ (length bytes.now < 4) }
        ensures bad_length { IsErrOf result PacketFault.BadLength
            ↔ ((4 ≤ length bytes.now) × HasBadLength bytes.now) }
    {
        if bytes.len() < 4 {
            return Err(PacketFault::Short);
        }
        let size = usize::from(BigEndian::read_u16(&bytes[2..4]));
        if size < 4 || size > bytes.len() || size > MOST_FRAME {
            return Err(PacketFault::BadLength);
        }
        let mut body = Body::new();
        body.append(&bytes[4..size]);
        Ok(Packet {
            code: bytes[0],
            id: bytes[1],
            body,
        })
    }

    /// Appends the packet, where it fits.
    pub fn write(&self, out: &mut Frame) -> bool
        ensures fits { IsTrue result ↔ (length out.old + (length self.now.body + 4) ≤ MOST_FRAME) }
        ensures written { OnTrue result (out.new ≡ out.old ++ laid_packet self.now) }
        ensures unchanged { OnFalse result (out.new ≡ out.old) }
    {
        let octets = self.to_frame();
        if MOST_FRAME - out.len() < octets.len() {
            return false;
        }
        out.append(octets.as_slice());
        true
    }

    /// The packet's octets.
    pub fn to_frame(&self) -> Frame
        ensures { result ≡ laid_packet self.now }
    {
        let data = self.body.as_slice();
        let size = data.len() + 4;
        let mut frame = Frame::new();
        let mut header = [self.code, self.id, 0, 0];
        BigEndian::write_u16(&mut header[2..], size as u16);
        frame.append(&header);
        frame.append(data);
        frame
    }

    /// The same packet again. It takes no memory.
    pub fn copy(&self) -> Packet
        ensures { result ≡ self.now }
    {
        Packet {
            code: self.code,
            id: self.id,
            body: self.body.copy(),
        }
    }
}
