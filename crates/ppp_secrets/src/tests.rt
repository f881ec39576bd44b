use super::*;
use ppp_base::{Allow, Name};
use std::test::*;

fn name(octets: &[u8]) -> Result<Name, Fail> {
    Ok(Name::from_octets(octets).ok_or("a short name")?)
}

#[test]
fn the_line_with_the_fewest_stars(rt: HostRuntime) -> Result<(), Fail> {
    let text = b"* srv one *\nbob srv two 10.0.0.0/8\nbob srv three -\n";
    let read = Secrets::read(rt.alloc(), text.as_slice())
        .ok()
        .ok_or("lawful")?;
    let secrets = read.copy(rt.alloc()).ok().ok_or("room")?;
    let none = Secrets::read(rt.alloc(), b"".as_slice())
        .ok()
        .ok_or("lawful")?;
    let pair = SecretsPair {
        pap: none,
        chap: secrets,
    };
    let pair = pair.copy(rt.alloc()).ok().ok_or("room")?;
    let server = name(b"srv")?;
    assert_eq!(rt; pair.chap.lookup(&name(b"bob")?, &server), Some(2));
    assert_eq!(rt; pair.chap.lookup(&name(b"eve")?, &server), Some(1));
    assert_eq!(rt; pair.chap.lookup(&server, &name(b"bob")?), None);
    assert_eq!(rt; pair.pap.lookup(&name(b"bob")?, &server), None);
    assert!(rt; pair.chap.allows(2, [10, 1, 2, 3]));
    assert!(rt; !pair.chap.allows(2, [11, 0, 0, 1]));
    assert!(rt; pair.chap.allows(1, [11, 0, 0, 1]));
    assert!(rt; !pair.chap.allows(3, [11, 0, 0, 1]));
    assert!(rt; !pair.chap.allows(4, [11, 0, 0, 1]));
    assert!(rt; pair.allows(Allow::Any, [11, 0, 0, 1]));
    assert!(rt; pair.allows(Allow::Chap(2), [10, 1, 2, 3]));
    assert!(rt; !pair.allows(Allow::Chap(2), [11, 0, 0, 1]));
    assert!(rt; !pair.allows(Allow::Pap(2), [10, 1, 2, 3]));
    let secret = pair.chap.secret(2).ok_or("a kept line")?;
    assert_eq!(rt; secret.as_slice(), b"two".as_slice());
    assert!(rt; pair.chap.secret(4).is_none());
    Ok(())
}

#[test]
fn address_words(rt: HostRuntime) -> Result<(), Fail> {
    let text =
        b"a b c !10.0.0.0/8 *\n# none\na b c 0.0.0.0/0\na b c 001.2.3.0000000004 - 1.2.3.6/0000000031\n";
    let secrets = Secrets::read(rt.alloc(), text.as_slice())
        .ok()
        .ok_or("lawful")?;
    assert!(rt; !secrets.allows(1, [10, 1, 1, 1]));
    assert!(rt; secrets.allows(1, [11, 1, 1, 1]));
    assert!(rt; secrets.allows(3, [200, 1, 1, 1]));
    for (last, allowed) in [
        (3, false),
        (4, true),
        (5, false),
        (6, true),
        (7, true),
        (8, false),
    ] {
        assert_eq!(rt; secrets.allows(4, [1, 2, 3, last]), allowed);
    }
    Ok(())
}

#[test]
fn faults(rt: HostRuntime) {
    let texts: [(&[u8], SecretsFault); 13] = [
        (b"bob srv", SecretsFault::FewWords(1)),
        (b"a b c 10.0.0.1\n\nd e @f", SecretsFault::FileSecret(3)),
        (b"a b c\n'a\nb' c d", SecretsFault::BadQuote(2)),
        (b"a", SecretsFault::FewWords(1)),
        (b"a b c 1.2.3", SecretsFault::BadAddress(1)),
        (b"a b c 1.2.3.00000000004", SecretsFault::BadAddress(1)),
        (b"a b c 1.2.3.4/00000000008", SecretsFault::BadAddress(1)),
        (b"a b c 1.2.3.256", SecretsFault::BadAddress(1)),
        (b"a b c 1.2.3.4/33", SecretsFault::BadAddress(1)),
        (b"a b c 1.2.3.4/", SecretsFault::BadAddress(1)),
        (b"a b c 1.2.3.4/8/8", SecretsFault::BadAddress(1)),
        (b"a b c !-", SecretsFault::BadAddress(1)),
        (b"a b @c bad\na", SecretsFault::FileSecret(1)),
    ];
    for (text, fault) in texts {
        assert_eq!(rt; Secrets::read(rt.alloc(), text).err(), Some(fault));
    }
    let mut long = [b'a'; 260];
    long[1] = b' ';
    long[3] = b' ';
    assert_eq!(rt;
        Secrets::read(rt.alloc(), &long).err(),
        Some(SecretsFault::TooLong(1))
    );
    assert_eq!(rt; Secrets::read(rt.alloc(), &long[..259]).err(), None);
}

#[test]
fn the_best_line_of_a_text(rt: HostRuntime) -> Result<(), Fail> {
    let rows: [(&[u8], Option<u32>); 5] = [
        (b"bob * one\nbob srv two", Some(2)),
        (b"* * a\n* srv b", Some(2)),
        (b"* * a\nbob * b", Some(2)),
        (b"bob * one\n* srv two", Some(1)),
        (b"eve * one\n\nbob eve two", None),
    ];
    let (bob, server) = (name(b"bob")?, name(b"srv")?);
    for (text, line) in rows {
        let secrets = Secrets::read(rt.alloc(), text).ok().ok_or("lawful")?;
        assert_eq!(rt; secrets.lookup(&bob, &server), line);
    }
    Ok(())
}

#[test]
fn the_first_word_that_covers(rt: HostRuntime) -> Result<(), Fail> {
    let rows: [(&[u8], bool); 10] = [
        (b"a b c - 10.0.0.1", false),
        (b"a b c - *", false),
        (b"a b c 1.2.3.4 - 10.0.0.0/31", true),
        (b"a b c !10.0.0.0/8 *", false),
        (b"a b c * !10.0.0.0/8", true),
        (b"a b c !11.0.0.0/8 *", true),
        (b"a b c 10.9.8.7/8", true),
        (b"a b c 200.9.8.7/0", true),
        (b"a b c 10.0.0.0/32 0000000010.0.0.2", false),
        (b"a b c", false),
    ];
    for (text, allowed) in rows {
        let secrets = Secrets::read(rt.alloc(), text).ok().ok_or("lawful")?;
        assert_eq!(rt; secrets.allows(1, [10, 0, 0, 1]), allowed);
    }
    Ok(())
}
