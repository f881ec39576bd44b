use super::*;
use arrayvec::ArrayVec;
use rand_core::Rng;
use std::test::Fail;

#[test]
fn bounded_octets(rt: HostRuntime) -> Result<(), Fail> {
    let full = [7u8; 5];
    assert!(rt; Octets::<4>::from_octets(&full).is_none());
    let most = Octets::<4>::from_octets(&full[..4]).expect(&rt, "four octets fit");
    assert_eq!(rt; most.len(), 4);
    let mut some = Octets::<4>::new();
    assert!(rt; some.is_empty() && some == Octets::default());
    some.push(b'a');
    some.append(b"bc");
    assert_eq!(rt; some.as_slice(), b"abc".as_slice());
    let same = some.copy();
    let inner: ArrayVec<u8, 4> = ArrayVec::from(some);
    assert_eq!(rt; inner.as_slice(), b"abc".as_slice());
    let mut again = Octets::from(inner);
    assert!(rt; again == same);
    again.clear();
    assert!(rt; again.is_empty() && again != same);
    Ok(())
}

#[test]
fn most_octets(rt: HostRuntime) {
    let full = [7u8; 2049];
    assert!(rt; Name::from_octets(&full[..MOST_NAME]).is_some());
    assert!(rt; Name::from_octets(&full[..256]).is_none());
    assert!(rt; Frame::from_octets(&full[..MOST_FRAME]).is_some());
    assert!(rt; Frame::from_octets(&full[..1509]).is_none());
    assert!(rt; Datagram::from_octets(&full[..MOST_DATAGRAM]).is_some());
    assert!(rt; Datagram::from_octets(&full).is_none());
}

#[test]
fn numbers_in_words(rt: HostRuntime) {
    for (word, zeros, least, most, number) in [
        ("0", LeadingZeros::Refused, 0, 255, Some(0)),
        ("255", LeadingZeros::Refused, 0, 255, Some(255)),
        ("256", LeadingZeros::Refused, 0, 255, None),
        ("05", LeadingZeros::Refused, 0, 255, None),
        ("05", LeadingZeros::Lawful, 0, 255, Some(5)),
        ("0000000005", LeadingZeros::Lawful, 0, 255, Some(5)),
        ("00000000005", LeadingZeros::Lawful, 0, 255, None),
        ("", LeadingZeros::Lawful, 0, 255, None),
        ("+5", LeadingZeros::Lawful, 0, 255, None),
        ("-5", LeadingZeros::Lawful, 0, 255, None),
        ("5 ", LeadingZeros::Lawful, 0, 255, None),
        ("5x", LeadingZeros::Lawful, 0, 255, None),
        ("0", LeadingZeros::Lawful, 1, 255, None),
        (
            "18446744073709551615",
            LeadingZeros::Refused,
            0,
            u64::MAX,
            Some(u64::MAX),
        ),
        (
            "18446744073709551616",
            LeadingZeros::Refused,
            0,
            u64::MAX,
            None,
        ),
    ] {
        assert_eq!(rt;
            read_number(word.as_bytes(), zeros, least, most),
            number,
            "at {word}"
        );
    }
}

#[test]
fn addresses(rt: HostRuntime) {
    assert_eq!(rt; read_address(b"10.0.0.255"), Some([10, 0, 0, 255]));
    assert_eq!(rt; read_address(b"010.0.0000000000.1"), Some([10, 0, 0, 1]));
    for word in [
        "",
        "10.0.0",
        "10.0.0.1.",
        "10.0.0.1.2",
        "10.0.0.256",
        "10..0.1",
        "10.0.0.1 ",
        "10.0.0.00000000001",
    ] {
        assert!(rt; read_address(word.as_bytes()).is_none(), "at {word}");
    }
    let (first, rest) = first_part(b"a/b/", b'/');
    assert_eq!(rt; first, b"a".as_slice());
    assert!(rt; rest == Some(b"b/".as_slice()));
    let (all, none) = first_part(b"ab", b'/');
    assert!(rt; all == b"ab".as_slice() && none.is_none());
}

#[test]
fn answers_to_events(rt: HostRuntime) {
    let taken: Stepped<u8> = Stepped::Taken;
    assert!(rt; taken.is_taken() && taken.into_stale().is_none());
    let stale = Stepped::Stale(7u8);
    assert!(rt; !stale.is_taken());
    assert_eq!(rt; stale.into_stale(), Some(7));
}

#[test]
fn ranges_of_numbers(rt: HostRuntime) -> Result<(), Fail> {
    for (number, is_link, is_unit) in [
        (0, false, true),
        (1, true, true),
        (15, true, true),
        (16, true, false),
        (17, false, false),
    ] {
        assert_eq!(rt; LinkId::new(number).is_some(), is_link, "at {number}");
        assert_eq!(rt; Unit::new(number).is_some(), is_unit, "at {number}");
    }
    assert_eq!(rt; LinkId::new(3).expect(&rt, "in range").number(), 3);
    assert_eq!(rt; Unit::new(3).expect(&rt, "in range").number(), 3);
    assert_eq!(rt; Unit::zero().number(), 0);
    for (ours, theirs, fits) in [
        (1499, 1500, false),
        (1500, 1499, false),
        (1500, 1500, true),
        (2048, 65535, true),
        (2049, 1500, false),
    ] {
        assert_eq!(rt;
            Mrru::new(ours, theirs).is_some(),
            fits,
            "at {ours}, {theirs}"
        );
    }
    let mrru = Mrru::new(1600, 1700).expect(&rt, "in range");
    assert_eq!(rt; (mrru.ours(), mrru.theirs()), (1600, 1700));
    Ok(())
}

#[test]
fn discriminators(rt: HostRuntime) -> Result<(), Fail> {
    assert!(rt; Disc::new(0, &[1]).is_none());
    assert!(rt; Disc::new(1, &[0; 21]).is_none());
    let disc = Disc::new(3, &[1, 2]).expect(&rt, "in range").copy();
    assert_eq!(rt; disc.class(), 3);
    assert_eq!(rt; disc.address(), [1, 2].as_slice());
    assert!(rt; disc == disc.copy());
    for (class, address) in [(4, [1, 2]), (3, [1, 3])] {
        let other = Disc::new(class, &address).expect(&rt, "in range");
        assert!(rt; disc != other, "at {class}");
    }
    Ok(())
}

#[test]
fn hexadecimal(rt: HostRuntime) -> Result<(), Fail> {
    let mut out = Datagram::new();
    assert!(rt; read_hex(b"00ff7E0a", &mut out));
    assert_eq!(rt; out.as_slice(), [0x00, 0xff, 0x7e, 0x0a].as_slice());
    for text in [
        "0", "0g", "g0", "012", " 00", "0x00", "/0", ":0", "@0", "`0",
    ] {
        assert!(rt; !read_hex(text.as_bytes(), &mut out), "at {text}");
        assert_eq!(rt; out.len(), 4, "at {text}");
    }
    assert!(rt; !read_hex(&[b'0'; 4098], &mut out));
    assert!(rt; read_hex(&[b'1'; 4096], &mut out));
    assert_eq!(rt; out.len(), 2048);
    assert!(rt; read_hex(b"", &mut out) && out.is_empty());
    assert_eq!(rt; read_hex_number(b"0a0A"), Some(0x0a0a));
    assert_eq!(rt; read_hex_number(b"ffffffff"), Some(0xffff_ffff));
    for text in ["", "000000000", "g", "0x1"] {
        assert!(rt; read_hex_number(text.as_bytes()).is_none(), "at {text}");
    }
    for (value, digit) in [(0, b'0'), (9, b'9'), (10, b'a'), (15, b'f')] {
        assert_eq!(rt; hex_digit(value), digit, "at {value}");
    }
    Ok(())
}

#[test]
fn random_words(rt: HostRuntime) {
    let mut words = RandomWords::new(0);
    assert_eq!(rt; words.next_u32(), 335903614);
    assert_eq!(rt; words.state(), 0x1405_7b7e_f767_814f);
    let mut same = words;
    let next = words.next_u32();
    assert_eq!(rt; same.next_u64() & 0xffff_ffff, u64::from(next));
    let mut octets = [0u8; 2];
    words.fill_bytes(&mut octets);
    let mut words = RandomWords::new(1);
    assert_eq!(rt;
        words.challenge(),
        [
            0x6c, 0x57, 0x6f, 0xac, 0x82, 0x68, 0x86, 0xb3, 0xa5, 0xfa, 0xe1, 0x99, 0x62, 0x03,
            0x55, 0xcd
        ]
    );
    assert_eq!(rt; words.branch().state(), 0xcba2_76b4_8021_81e6);
    assert_eq!(rt; words.state(), 0x8021_81e6_e230_707f);
    let plain = SendSettings::plain();
    assert!(rt; plain.map == DEFAULT_MAP && !plain.pfc && !plain.acfc);
}

// A link with one post that waits, which takes each post and does nothing with it.
#[derive(Drop)]
struct OnePost {
    waiting: Option<UpPost>,
}

impl Ends for OnePost {
    ghost use Rattle.std.specs.Prelude.{◌≡◌, None, true, option_to_list};

    ghost number = { λ s. 1 };

    ghost is_present = { λ s post. true };

    ghost Takes = { λ s post new. new ≡ s };

    ghost waiting = { λ s. option_to_list s.waiting };

    ghost Posted = { λ s new. new ≡ record s { waiting = None } };

    fn id(&self) -> LinkId {
        match LinkId::new(1) {
            Some(link) => link,
            None => unreachable!(),
        }
    }

    fn take_up(&mut self) -> Option<UpPost> {
        self.waiting.take()
    }

    fn from_table(&mut self, _post: Post) -> Stepped<Post> {
        Stepped::Taken
    }
}

#[test]
fn posts(rt: HostRuntime) {
    for (reason, number) in [
        (Refusal::Unlike, 1),
        (Refusal::UnitTaken, 2),
        (Refusal::NoRoom, 3),
    ] {
        assert_eq!(rt; reason.number(), number, "at {reason:?}");
    }
    for (cause, number) in [
        (CloseCause::Idle, 12),
        (CloseCause::ConnectTime, 13),
        (CloseCause::IpcpFailed, 14),
        (CloseCause::EndedByPeer, 15),
        (CloseCause::TooManyChanges, 16),
    ] {
        assert_eq!(rt; cause.number(), number, "at {cause:?}");
    }
    let join = Join {
        stay: 1,
        peer: None,
        disc: None,
        mrru: None,
        mru: 1500,
        allow: Allow::Any,
    };
    let mut link = OnePost {
        waiting: Some(UpPost::Join(join)),
    };
    assert_eq!(rt; link.id().number(), 1);
    assert!(rt; link.take_up().is_some() && link.take_up().is_none());
    let member = Post::Member {
        stay: 1,
        unit: Unit::zero(),
        live: false,
    };
    assert!(rt; link.from_table(member).is_taken());
}
