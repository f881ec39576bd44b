use super::*;
use arrayvec::ArrayVec;
use ppp_base::{Frame, LEAST_MRU, LinkId};
use std::alloc::{AllocError, Global};
use std::process::Abort;
use std::test::Fail;

fn link(rt: &impl Abort, number: u8) -> LinkId {
    LinkId::new(number).expect(rt, "1 to 16")
}

fn members_of(rt: &impl Abort, rows: &[(u8, u16)]) -> Members {
    let mut members = Members::new();
    for (number, mru) in rows {
        let member = MemberView {
            link: link(rt, *number),
            mru: *mru,
        };
        assert!(rt; members.add(member), "at {number}");
    }
    members
}

// A piece that comes, the answer to it, and how many packets it gives.
struct Row(u8, &'static [u8], PieceNow, u8);

fn comes(rt: &impl Abort, gather: &mut Gather, given: &mut Given, rows: &[Row]) {
    for Row(number, information, answer, packets) in rows {
        assert!(rt; information.len() <= 1508);
        let answered = gather.piece(link(rt, *number), information, given);
        assert_eq!(rt;
            (answered, given.count()),
            (*answer, *packets),
            "at {information:?}"
        );
    }
}

fn is_packet(given: &Given, at: u8, octets: &[u8]) -> bool {
    match given.get(at) {
        Some(packet) => *packet == *octets,
        None => false,
    }
}

#[test]
fn members_in_link_order(rt: HostRuntime) {
    let mut members = members_of(&rt, &[(1, 128), (7, 1500)]);
    for (number, mru) in [(7, 1500), (6, 1500), (8, 127), (8, 1501)] {
        let member = MemberView {
            link: link(&rt, number),
            mru,
        };
        assert!(rt; !members.add(member), "at {number}");
    }
    assert_eq!(rt; members.len(), 2);
    let views: ArrayVec<MemberView, 16> = ArrayVec::from(members);
    let members = Members::from_views(views).expect(&rt, "in link order");
    assert_eq!(rt; MemberView::default().mru, LEAST_MRU);
    assert!(rt; !members.is_empty() && Members::new().is_empty());
    assert_eq!(rt;
        members.as_slice().last().map(|member| member.mru),
        Some(1500)
    );
}

#[test]
fn sizes_of_pieces(rt: HostRuntime) {
    // The members' MRU, the length, the turn, how many pieces, and the size and the link of the first and the last.
    let rows: [(&[(u8, u16)], u16, u8, u8, u16, u8, u16, u8); 6] = [
        (&[(1, 1500), (2, 1500)], 300, 0, 2, 150, 1, 150, 2),
        (&[(1, 1500), (2, 1500)], 128, 1, 1, 128, 2, 128, 2),
        (&[(1, 1500), (2, 1500)], 129, 3, 2, 65, 2, 64, 1),
        (&[(3, 1500)], 1500, 9, 2, 1496, 3, 4, 3),
        (&[(1, 128), (2, 1500), (9, 1500)], 400, 2, 4, 124, 9, 28, 9),
        (&[(1, 128)], 2050, 0, 17, 124, 1, 66, 1),
    ];
    for (rows, len, turn, count, first, from, last, to) in rows {
        let members = members_of(&rt, rows);
        assert!(rt; 0 < members.len() && 0 < len && len <= 2050);
        let cuts = cut(len, &members, turn);
        assert_eq!(rt; cuts.count(), count, "at {len}");
        let piece = cuts.get(0).expect(&rt, "one piece at least");
        assert_eq!(rt;
            (piece.place, piece.len, piece.link.number()),
            (0, first, from),
            "at {len}"
        );
        let piece = cuts.get(count.saturating_sub(1)).expect(&rt, "as counted");
        assert_eq!(rt; (piece.len, piece.link.number()), (last, to), "at {len}");
        assert!(rt; cuts.get(count).is_none() && cuts.header(count, 0).is_none());
        let pieces: ArrayVec<CutPiece, 17> = ArrayVec::from(cuts);
        assert_eq!(rt; Cuts::from(pieces).count(), count);
        assert_eq!(rt; CutPiece::default().len, 0);
    }
}

#[test]
fn a_datagram_over_two_links(rt: HostRuntime) -> Result<(), Fail> {
    let members = members_of(&rt, &[(1, 1500), (2, 1500)]);
    let packet = [0x21u8; 300];
    assert!(rt; 0 < members.len());
    let mut sending = Sending::new();
    let cuts = sending.cut(300, &members);
    assert_eq!(rt; (sending.number(), sending.turn()), (2, 2));
    let from = cuts.get(0).expect(&rt, "the first piece").link;
    let to = cuts.get(1).expect(&rt, "the second piece").link;
    let first = cuts.information(0, 0, &packet).expect(&rt, "a frame");
    let second = cuts.information(1, 0, &packet).expect(&rt, "a frame");
    assert_eq!(rt;
        (from.number(), to.number(), first.len(), second.len()),
        (1, 2, 154, 154)
    );
    assert!(rt; cuts.information(2, 0, &packet).is_none());
    assert!(rt; cuts.information(1, 0, &packet[..299]).is_none());
    assert!(rt; first.as_slice().starts_with(&[0x80, 0, 0, 0, 0x21]));
    assert!(rt; second.as_slice().starts_with(&[0x40, 0, 0, 1, 0x21]));

    let mut gather = Gather::new(rt.alloc(), 1500)?;
    let mut given = Given::new(rt.alloc())?;
    gather.join(from);
    gather.join(to);
    assert_eq!(rt;
        gather.piece(to, second.as_slice(), &mut given),
        PieceNow::Kept
    );
    assert_eq!(rt;
        gather.piece(to, second.as_slice(), &mut given),
        PieceNow::Doubled
    );
    assert_eq!(rt; given.count(), 0);
    assert_eq!(rt;
        gather.piece(from, first.as_slice(), &mut given),
        PieceNow::Kept
    );
    assert_eq!(rt; given.count(), 1);
    assert!(rt; is_packet(&given, 0, &packet) && given.get(1).is_none());
    assert_eq!(rt;
        gather.piece(from, first.as_slice(), &mut given),
        PieceNow::Old
    );
    gather.leave(from, &mut given);
    assert_eq!(rt;
        gather.piece(from, first.as_slice(), &mut given),
        PieceNow::Stranger
    );
    assert_eq!(rt;
        gather.counts(),
        GatherCounts {
            old: 1,
            doubled: 1,
            lost: 0,
            too_long: 0
        }
    );
    gather.restart(2048);
    assert_eq!(rt; gather.counts(), GatherCounts::default());
    assert_eq!(rt;
        gather.piece(to, second.as_slice(), &mut given),
        PieceNow::Stranger
    );
    Ok(())
}

#[test]
fn numbers_begin_anew(rt: HostRuntime) -> Result<(), Fail> {
    let mut gather = Gather::new(rt.alloc(), 1500)?;
    let mut given = Given::new(rt.alloc())?;
    gather.join(link(&rt, 1));
    comes(
        &rt,
        &mut gather,
        &mut given,
        &[
            Row(1, &[0xc0, 0x7f, 0xff, 0xff], PieceNow::Kept, 1),
            Row(1, &[0xc0, 0xff, 0xff, 0xfe], PieceNow::Kept, 1),
            Row(1, &[0x80, 0xff, 0xff, 0xff, b'a'], PieceNow::Kept, 0),
            Row(1, &[0x40, 0, 0, 0, b'b'], PieceNow::Kept, 1),
        ],
    );
    assert!(rt; is_packet(&given, 0, b"ab"));
    comes(
        &rt,
        &mut gather,
        &mut given,
        &[
            Row(1, &[0xc0, 0xff, 0xff], PieceNow::BadHeader, 0),
            Row(2, &[0xc0], PieceNow::Stranger, 0),
            Row(1, &[0xc0, 0xff, 0xff, 0xff], PieceNow::Old, 0),
        ],
    );
    assert_eq!(rt; gather.counts().lost, 16_777_213);
    Ok(())
}

#[test]
fn a_member_that_lags(rt: HostRuntime) -> Result<(), Fail> {
    let mut gather = Gather::new(rt.alloc(), 1500)?;
    let mut given = Given::new(rt.alloc())?;
    // The last piece, the link that brings it, and how many numbers are lost: 127 beyond the least, or the least itself.
    for (number, from, lost) in [(128, 1, 1), (0, 2, 0)] {
        gather.restart(1500);
        gather.join(link(&rt, 1));
        gather.join(link(&rt, 2));
        for number in 1..128u8 {
            let answered = gather.piece(link(&rt, 1), &[0xc0, 0, 0, number], &mut given);
            assert_eq!(rt;
                (answered, given.count()),
                (PieceNow::Kept, 0),
                "at {number}"
            );
        }
        let answered = gather.piece(link(&rt, from), &[0xc0, 0, 0, number], &mut given);
        assert_eq!(rt;
            (answered, given.count(), gather.counts().lost),
            (PieceNow::Kept, 128, lost),
            "at {number}"
        );
        assert!(rt; gather.looks() <= 1024, "{}", gather.looks());
    }
    Ok(())
}

#[test]
fn slots_by_number(rt: HostRuntime) -> Result<(), Fail> {
    let mut slots = Slots::new(rt.alloc())?;
    assert!(rt; slots.at(16_777_215).is_none());
    let octets = Frame::from_octets(b"ab").expect(&rt, "it fits");
    let piece = SlotPiece {
        first: true,
        last: false,
        len: 2,
        octets,
    };
    slots.put(16_777_215, piece);
    let view = SlotView {
        first: true,
        last: false,
        len: 2,
    };
    assert_eq!(rt; slots.at(16_777_215), Some(view));
    assert!(rt; slots.at(127).is_none() && slots.clear(127).is_none());
    let piece = slots.clear(16_777_215).expect(&rt, "it was put");
    assert_eq!(rt; piece.octets.as_slice(), b"ab".as_slice());
    assert!(rt; slots.at(16_777_215).is_none());
    assert_eq!(rt; slots.looks(), 7);
    slots.reset();
    assert_eq!(rt; slots.looks(), 0);
    Ok(())
}

#[test]
fn a_far_jump(rt: HostRuntime) -> Result<(), Fail> {
    let mut gather = Gather::new(rt.alloc(), 1500)?;
    let mut given = Given::new(rt.alloc())?;
    gather.join(link(&rt, 1));
    comes(
        &rt,
        &mut gather,
        &mut given,
        &[Row(1, &[0xc0, 0x7f, 0xfd, 0xa0, b'x'], PieceNow::Kept, 1)],
    );
    assert!(rt; is_packet(&given, 0, b"x"));
    assert_eq!(rt; gather.counts().lost, 8_388_000);
    assert!(rt; gather.looks() <= 1024, "{}", gather.looks());
    Ok(())
}

// Without the premise that each piece arrives less than half the number space from the least number that isn't settled,
// what is given is no subsequence of what was sent: the first packet comes once more behind the others.
#[test]
fn a_repeat_beyond_half_the_space(rt: HostRuntime) -> Result<(), Fail> {
    let mut gather = Gather::new(rt.alloc(), 1500)?;
    let mut given = Given::new(rt.alloc())?;
    gather.join(link(&rt, 1));
    for (field, octet) in [
        ([0, 0, 0], b'a'),
        ([0x7f, 0xff, 0xff], b'b'),
        ([0xf4, 0x24, 0], b'c'),
        ([0, 0, 0], b'a'),
    ] {
        let [high, middle, low] = field;
        let answered = gather.piece(link(&rt, 1), &[0xc0, high, middle, low, octet], &mut given);
        assert_eq!(rt;
            (answered, given.count()),
            (PieceNow::Kept, 1),
            "at {octet}"
        );
        assert!(rt; is_packet(&given, 0, &[octet]), "at {octet}");
    }
    Ok(())
}

const SPACE: u64 = 1 << 24;

// The definition again as a plain program, one number at a time, for small histories: full numbers from 2^24 on, every
// piece that was kept, and what was given in the last call.
#[derive(Drop)]
struct Plain {
    least: u64,
    kept: Vec<Fragment>,
    brought: [Option<u64>; 4],
    given: Vec<Vec<u8>>,
    counts: GatherCounts,
}

#[derive(Clone, Copy, Debug)]
struct Fragment {
    number: u64,
    first: bool,
    last: bool,
    octet: u8,
}

impl Plain {
    fn new(alloc: Global) -> Plain {
        Plain {
            least: SPACE,
            kept: Vec::new(alloc),
            brought: [None; 4],
            given: Vec::new(alloc),
            counts: GatherCounts::default(),
        }
    }

    fn kept_at(&self, number: u64) -> Option<Fragment> {
        self.kept
            .iter()
            .copied()
            .find(|piece| piece.number == number)
    }

    fn mark(&self) -> u64 {
        self.brought
            .iter()
            .copied()
            .flatten()
            .min()
            .unwrap_or(self.least)
    }

    fn lose(&mut self, count: u64) {
        self.least = self.least.saturating_add(count);
        self.counts.lost = self.counts.lost.saturating_add(count);
    }

    fn complete(&mut self, alloc: Global, count: u64) -> Result<(), AllocError> {
        let mut packet = Vec::new(alloc);
        for i in 0..count {
            if let Some(piece) = self.kept_at(self.least.saturating_add(i)) {
                packet.push(piece.octet)?;
            }
        }
        self.given.push(packet)?;
        self.least = self.least.saturating_add(count);
        Ok(())
    }

    // Applies the one rule that applies. False where none does.
    fn rule(&mut self, alloc: Global, bound: u64) -> Result<bool, AllocError> {
        for len in 0..1000u64 {
            let number = self.least.saturating_add(len);
            match self.kept_at(number) {
                None if number < bound => {
                    self.lose(len + 1);
                    return Ok(true);
                }
                None => return Ok(false),
                Some(piece) if piece.first != (len == 0) => {
                    self.lose(len.max(1));
                    return Ok(true);
                }
                Some(piece) if piece.last => {
                    self.complete(alloc, len + 1)?;
                    return Ok(true);
                }
                Some(_) => {}
            }
        }
        Ok(false)
    }

    fn settle(&mut self, alloc: Global, bound: u64) -> Result<(), AllocError> {
        for _ in 0..1000 {
            if !self.rule(alloc, bound)? {
                break;
            }
        }
        Ok(())
    }

    fn brings(&mut self, link: usize, number: u64) {
        if let Some(brought) = self.brought.get_mut(link) {
            *brought = Some(number.max(brought.unwrap_or(0)));
        }
    }

    fn piece(
        &mut self,
        alloc: Global,
        link: usize,
        piece: Fragment,
    ) -> Result<PieceNow, AllocError> {
        self.given.clear();
        if self.brought.get(link).copied().flatten().is_none() {
            return Ok(PieceNow::Stranger);
        }
        let answer = if piece.number < self.least {
            self.counts.old = self.counts.old.saturating_add(1);
            PieceNow::Old
        } else if self.kept_at(piece.number).is_some() {
            self.counts.doubled = self.counts.doubled.saturating_add(1);
            PieceNow::Doubled
        } else {
            let low = piece.number.saturating_sub(127);
            self.settle(alloc, self.mark().max(low))?;
            self.lose(low.saturating_sub(self.least));
            self.kept.push(piece)?;
            PieceNow::Kept
        };
        self.brings(link, piece.number);
        self.settle(alloc, self.mark())?;
        Ok(answer)
    }

    fn leave(&mut self, alloc: Global, link: usize) -> Result<(), AllocError> {
        self.given.clear();
        if let Some(brought) = self.brought.get_mut(link) {
            if brought.is_some() {
                *brought = None;
                self.settle(alloc, self.mark())?;
            }
        }
        Ok(())
    }

    fn join(&mut self, link: usize) {
        let before = self.least.saturating_sub(1);
        if let Some(brought) = self.brought.get_mut(link) {
            if brought.is_none() {
                *brought = Some(before);
            }
        }
    }

    fn has_given(&self, given: &Given) -> bool {
        let mut same = self.given.len() == usize::from(given.count());
        for (at, packet) in self.given.iter().enumerate() {
            same = same && at < 256 && is_packet(given, at as u8, packet.as_slice());
        }
        same
    }
}

// The next of a row of numbers that look like chance.
fn next(word: u32) -> u32 {
    word.wrapping_mul(1_664_525).wrapping_add(1_013_904_223)
}

// A gatherer, and the plain program beside it.
#[derive(Drop)]
struct Both {
    alloc: Global,
    gather: Gather,
    given: Given,
    plain: Plain,
}

impl Both {
    fn restart(&mut self, rt: &impl Abort) -> Result<(), AllocError> {
        self.gather.restart(1500);
        self.plain = Plain::new(self.alloc);
        self.leaves(link(rt, 1))
    }

    fn leaves(&mut self, from: LinkId) -> Result<(), AllocError> {
        self.gather.leave(from, &mut self.given);
        self.plain.leave(self.alloc, usize::from(from.number()))
    }

    fn comes(&mut self, rt: &impl Abort, from: LinkId, piece: Fragment) -> Result<(), AllocError> {
        let field = piece.number % SPACE;
        let first = if piece.first { 0x80 } else { 0 };
        let last = if piece.last { 0x40 } else { 0 };
        let information = [
            first + last,
            (field / 65536) as u8,
            (field / 256 % 256) as u8,
            (field % 256) as u8,
            piece.octet,
        ];
        let answer = self.gather.piece(from, &information, &mut self.given);
        let wanted = self
            .plain
            .piece(self.alloc, usize::from(from.number()), piece)?;
        assert_eq!(rt; answer, wanted, "at {piece:?}");
        Ok(())
    }

    // The call that a word picks: of 16 two are joins, one is a leave, and the others are pieces near the least number.
    fn step(&mut self, rt: &impl Abort, word: u32, far: bool) -> Result<(), AllocError> {
        let from = link(rt, ((word >> 28) % 3 + 1) as u8);
        match (word >> 24) % 16 {
            0 | 1 => {
                self.gather.join(from);
                self.plain.join(usize::from(from.number()));
            }
            2 => self.leaves(from)?,
            _ => {
                let ahead = if far {
                    (word >> 16) % 300
                } else {
                    (word >> 16) % 6
                };
                let piece = Fragment {
                    number: self
                        .plain
                        .least
                        .saturating_add(u64::from(ahead))
                        .saturating_sub(2),
                    first: (word >> 10).is_multiple_of(2),
                    last: (word >> 11).is_multiple_of(2),
                    octet: ((word >> 8) % 256) as u8,
                };
                self.comes(rt, from, piece)?;
            }
        }
        assert!(rt; self.plain.has_given(&self.given), "at {word}");
        assert_eq!(rt; self.gather.counts(), self.plain.counts, "at {word}");
        Ok(())
    }
}

#[test]
fn the_plain_program_agrees(rt: HostRuntime) -> Result<(), Fail> {
    let mut both = Both {
        alloc: rt.alloc(),
        gather: Gather::new(rt.alloc(), 1500)?,
        given: Given::new(rt.alloc())?,
        plain: Plain::new(rt.alloc()),
    };
    let mut word = 7;
    let mut packets = 0u32;
    for step in 0..9600u32 {
        if step.is_multiple_of(24) {
            both.restart(&rt)?;
        }
        word = next(word);
        both.step(&rt, word, step % 96 < 24)?;
        packets = packets.saturating_add(u32::from(both.given.count()));
    }
    assert!(rt; 400 < packets, "{packets} packets");
    Ok(())
}
