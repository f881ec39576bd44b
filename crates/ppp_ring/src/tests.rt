use super::*;
use std::test::Fail;

#[test]
fn pieces(rt: HostRuntime) -> Result<(), Fail> {
    // Each piece takes 2 octets beside its own, and all take 10 at most.
    let mut ring = match PieceRing::<u8, 4>::new(rt.alloc(), 2, 10) {
        Ok(ring) => ring,
        Err(_) => return Err(Fail::from("no memory")),
    };
    assert!(rt; ring.is_empty() && ring.take().is_none());
    assert!(rt; ring.put(1, b"abc"));
    assert!(rt; !ring.put(2, b"wxyz"));
    assert!(rt; ring.put(3, b"def"));
    assert!(rt; !ring.put(4, b""));
    for (head, octets) in [(1, b"abc"), (3, b"def")] {
        match ring.take() {
            Some((was, taken)) => assert!(rt; was == head && taken.as_slice() == octets.as_slice()),
            None => assert!(rt; false, "at {head}"),
        }
    }
    assert!(rt; ring.put(5, b"abcd"));
    ring.clear();
    assert!(rt; ring.is_empty() && ring.take().is_none());
    Ok(())
}
