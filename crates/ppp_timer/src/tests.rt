use super::*;

#[test]
fn first_in_order(rt: HostRuntime) {
    let mut deadlines = Deadlines::new();
    assert!(rt; deadlines.due(u64::MAX).is_none());
    deadlines.set(Slot::Connect, 10);
    deadlines.set(Slot::Hold, 3000);
    deadlines.set(Slot::Echo, 3000);
    for (now, due) in [
        (9, None),
        (10, Some(Slot::Connect)),
        (2999, Some(Slot::Connect)),
        (3000, Some(Slot::Echo)),
    ] {
        assert!(rt; deadlines.due(now) == due, "at {now}");
    }
    deadlines.clear(Slot::Echo);
    assert!(rt; deadlines.due(3000) == Some(Slot::Hold));
    deadlines.set(Slot::Hold, 3001);
    assert!(rt; deadlines.due(3000) == Some(Slot::Connect));
    for (slot, is_due) in [
        (Slot::Connect, true),
        (Slot::Hold, false),
        (Slot::Echo, false),
    ] {
        assert!(rt; deadlines.is_due(slot, 3000) == is_due, "at {slot:?}");
    }
    assert_eq!(rt; deadlines.moment(Slot::Hold), Some(3001));
    assert!(rt; has_come(Some(5), 5) && !has_come(Some(5), 4) && !has_come(None, 5));
}
