use super::*;
use ppp_base::Name;
use ppp_packet::AuthOutcome;

#[test]
fn ten_times(rt: HostRuntime) {
    let mut own = Resending::new();
    assert!(rt; !own.is_begun() && own.again(u64::MAX) == Again::Nothing);
    own.sends(5);
    assert!(rt; own.is_begun() && own.again(3004) == Again::Nothing);
    for k in 1..10u64 {
        assert!(rt; own.again(5 + 3000 * k) == Again::Send, "at {k}");
        own.sends(5 + 3000 * k);
    }
    assert!(rt; own.again(5 + 29_999) == Again::Nothing);
    assert!(rt; own.again(5 + 30_000) == Again::GiveUp);
}

#[test]
fn outcomes_again(rt: HostRuntime) {
    let passed = AuthOutcome::Passed(Name::new(), 7);
    assert!(rt; matches!(copied(&passed), AuthOutcome::Passed(_, 7)));
    assert!(rt; matches!(copied(&AuthOutcome::Waiting), AuthOutcome::Waiting));
}
