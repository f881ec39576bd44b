ghost use Rattle.std.specs.Prelude.{◌≡◌, ℕ, ◌+◌, ◌-◌, ◌*◌, ◌/◌, ◌<◌, ◌≤◌, length};
ghost use Rattle.ppp_mp.specs.Cut.{Cut, share, least_mru, piece_size};
ghost use Rattle.ppp_mp.specs.Header.{long_octets};
ghost use Rattle.ppp_mp.specs.Members.{AreMembers};

use crate::cuts::{CutPiece, Cuts};
use crate::members::{MemberView, Members};

/// The pieces of a packet of so many octets, in order: the packet is the protocol field and the information. `turn` is
/// the position of the member that the first piece goes to, modulo the number of members.
pub fn cut(len: u16, members: &Members, turn: u8) -> Cuts
    requires some { 0 < len }
    requires within { len ≤ 2050 }
    requires members { 0 < length members.now }
    ensures { Cut long_octets len members.now turn result }
{
    let members = members.as_slice();
    let size = piece_size(len, members);
    let count = (len + size - 1) / size;
    let mut pieces = Cuts::new();
    for j in 0..count {
        let place = j * size;
        let member = members[(usize::from(turn) + usize::from(j)) % members.len()];
        pieces.push(CutPiece {
            place,
            len: size.min(len - place),
            link: member.link,
        });
    }
    pieces
}

// The size of all pieces but the last.
fn piece_size(len: u16, members: &[MemberView]) -> u16
    requires some { 0 < len }
    requires within { len ≤ 2050 }
    requires members { 0 < length members.now }
    requires few { length members.now ≤ 16 }
    requires lawful { AreMembers 0 members.now }
    ensures size { result ≡ piece_size long_octets len members.now }
    ensures some { 0 < result }
    ensures within { result ≤ len }
    ensures reaches { len ≤ 17 * result }
{
    let least = least_mru(members);
    least.saturating_sub(4).min(share(len, members.len()))
}

fn least_mru(members: &[MemberView]) -> u16
    ensures { result ≡ least_mru members.now }
{
    members
        .iter()
        .fold(u16::MAX, |least, member| least.min(member.mru))
}

// The share of each of so many members.
fn share(len: u16, members: usize) -> u16
    requires within { len ≤ 2050 }
    requires some { 0 < members }
    requires few { members ≤ 16 }
    ensures { result ≡ share len members }
{
    if len <= 128 || members == 1 {
        return len;
    }
    let members = members as u16;
    (len + members - 1) / members
}
