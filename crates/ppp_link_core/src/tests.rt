ghost use Rattle.std.specs.Prelude.{◌≤◌};

use crate::asks::LcpAsk;
use crate::link_core::LinkCore;
use ppp_base::{CloseCause, LinkId, Name, Octets, Refusal, Unit};
use ppp_link_rules::cause::Cause;
use ppp_option_words::LinkConfig;
use ppp_outside::{LineWords, ReplaySpawner};
use ppp_secrets::{Secrets, SecretsPair};
use std::test::Fail;

fn usual() -> LinkConfig {
    LinkConfig {
        line: LineWords::Socket(Octets::new()),
        script: None,
        mru: 1500,
        asyncmap: 0,
        default_asyncmap: false,
        nomagic: true,
        nopcomp: false,
        noaccomp: false,
        multilink: false,
        mrru: 1500,
        endpoint: None,
        auth: false,
        require_pap: false,
        require_chap: false,
        refuse_pap: false,
        refuse_chap: false,
        name: Name::new(),
        user: Name::new(),
        remotename: None,
        password: None,
        local: [0; 4],
        remote: None,
        ipcp_accept_local: false,
        ipcp_accept_remote: false,
        ipparam: Name::new(),
        unit: None,
        lcp_echo_interval: 0,
        lcp_echo_failure: 0,
        lcp_restart: 3,
        lcp_max_configure: 10,
        lcp_max_terminate: 2,
        lcp_max_failure: 10,
        ipcp_restart: 3,
        ipcp_max_configure: 10,
        ipcp_max_terminate: 3,
        ipcp_max_failure: 10,
        persist: false,
        demand: false,
        holdoff: 30,
        maxfail: 10,
        idle: 0,
        maxconnect: 0,
    }
}

// Each call on a link that hasn't begun: none finds anything to end, to send or to join.
#[test]
fn nothing_ends_before_the_beginning(rt: HostRuntime) -> Result<(), Fail> {
    let Some(id) = LinkId::new(1) else {
        return Ok(());
    };
    let alloc = rt.alloc();
    let secrets = SecretsPair {
        pap: Secrets::read(alloc, b"")?,
        chap: Secrets::read(alloc, b"")?,
    };
    let mut link = LinkCore::new(alloc, id, usual(), secrets, ReplaySpawner::new(), 1, 4096)?;
    link.call(LcpAsk::Up);
    link.hear_lcp(&[1, 1, 0, 4]);
    link.reject(0x80fd, &[1, 1, 0, 4]);
    link.tick_phase();
    link.hear_phase(0xc023, &[1, 1, 0, 4]);
    link.try_join();
    link.look_after();
    link.open_link();
    link.refuse_stay(1, Refusal::NoRoom);
    link.make_member(1, Unit::zero(), true);
    link.close_stay(1, Unit::zero(), CloseCause::Idle, true);
    link.end_by(Cause {
        number: 11,
        detail: 1,
    });
    link.send(0x0021, b"abc");
    assert!(rt; !link.is_busy() && !link.is_open() && !link.has_passed());
    assert!(rt; link.agreed().is_none());
    assert_eq!(rt; link.state(), 0);
    assert!(rt; !link.out.is_empty());
    Ok(())
}
