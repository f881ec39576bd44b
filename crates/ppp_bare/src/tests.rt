use crate::Bare;
use ppp_fsm::FsmEvent;
use ppp_mark::Mark;
use ppp_outside::ReplaySpawner;
use std::test::Fail;

#[test]
fn the_log_has_a_start_behind_its_cause(rt: HostRuntime) -> Result<(), Fail> {
    let mut bare = Bare::new(rt.alloc(), ReplaySpawner::new())?;
    for event in [
        FsmEvent::Open,
        FsmEvent::Up,
        FsmEvent::RcrGood,
        FsmEvent::Rca,
    ] {
        if bare.log().room() >= 3 {
            let _acts = bare.apply(event);
        }
    }
    let log = bare.log();
    assert_eq!(rt; log.get(0), Some(Mark::ip_open(0, 1)));
    assert_eq!(rt; log.get(1), Some(Mark::started(0, true, 1)));
    assert_eq!(rt; log.get(2), None);
    assert_eq!(rt; bare.take_job().map(|job| job.number()), Some(1));
    Ok(())
}
