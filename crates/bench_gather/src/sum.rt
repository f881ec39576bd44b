use ppp_mp::Given;

/// The reflected polynomial of the CRC-32.
const POLYNOMIAL: u32 = 0xedb8_8320;

/// What was given: how many packets and octets, and the CRC-32 over each packet's length in two octets and its octets.
/// Eight tables take eight octets at a time.
#[derive(Drop)]
pub(crate) struct Sum {
    tables: [u32; 2048],
    crc: u32,
    packets: u64,
    octets: u64,
}

impl Sum {
    pub(crate) fn new() -> Sum {
        let mut tables = [0u32; 2048];
        for octet in 0..256u32 {
            tables[octet as usize] = of_octet(octet);
        }
        for at in 256..2048usize {
            let value = tables[at - 256];
            tables[at] = (value >> 8) ^ tables[(value % 256) as usize];
        }
        Sum {
            tables,
            crc: 0,
            packets: 0,
            octets: 0,
        }
    }

    pub(crate) fn packets(&self) -> u64 {
        self.packets
    }

    pub(crate) fn octets(&self) -> u64 {
        self.octets
    }

    pub(crate) fn crc(&self) -> u32 {
        self.crc
    }

    pub(crate) fn take_all(&mut self, given: &Given) {
        for at in 0..given.count() {
            if let Some(packet) = given.get(at) {
                self.take(packet);
            }
        }
    }

    fn take(&mut self, packet: &[u8]) {
        let length = packet.len();
        self.packets = self.packets.wrapping_add(1);
        self.octets = self.octets.wrapping_add(length as u64);
        let begun = self.add(
            !self.crc,
            &[(length / 256 % 256) as u8, (length % 256) as u8],
        );
        self.crc = !self.add(begun, packet);
    }

    fn add(&self, before: u32, octets: &[u8]) -> u32 {
        let mut value = before;
        let mut left = octets;
        'eights: while let [a, b, c, d, e, f, g, h, rest @ ..] = left {
            let first = value ^ u32::from_le_bytes([*a, *b, *c, *d]);
            value = self.tables[1792 + (first % 256) as usize]
                ^ self.tables[1536 + (first / 256 % 256) as usize]
                ^ self.tables[1280 + (first / 65536 % 256) as usize]
                ^ self.tables[1024 + (first / 16_777_216) as usize]
                ^ self.tables[768 + usize::from(*e)]
                ^ self.tables[512 + usize::from(*f)]
                ^ self.tables[256 + usize::from(*g)]
                ^ self.tables[usize::from(*h)];
            left = rest;
        }
        for octet in left {
            value = (value >> 8) ^ self.tables[((value ^ u32::from(*octet)) % 256) as usize];
        }
        value
    }
}

// The remainder of one octet.
fn of_octet(octet: u32) -> u32 {
    let mut value = octet;
    for _ in 0..8u8 {
        value = if value % 2 == 1 {
            (value >> 1) ^ POLYNOMIAL
        } else {
            value >> 1
        };
    }
    value
}
