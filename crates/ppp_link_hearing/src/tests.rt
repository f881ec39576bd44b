ghost use Rattle.std.specs.Prelude.{◌≤◌};

use crate::chat::{begin_talk, tick_chat};
use crate::octets::take_span;
use crate::way::{Way, way_of};
use ppp_base::{LinkId, Name, Octets};
use ppp_chat::Script;
use ppp_link_core::link_core::LinkCore;
use ppp_option_words::LinkConfig;
use ppp_outside::{LineWords, ReplaySpawner};
use ppp_secrets::{Secrets, SecretsPair};
use std::alloc::Global;
use std::test::Fail;

fn usual(script: Option<Script>) -> LinkConfig {
    LinkConfig {
        line: LineWords::Socket(Octets::new()),
        script,
        mru: 1500,
        asyncmap: 0,
        default_asyncmap: false,
        nomagic: true,
        nopcomp: false,
        noaccomp: false,
        multilink: false,
        mrru: 1500,
        endpoint: None,
        auth: false,
        require_pap: false,
        require_chap: false,
        refuse_pap: false,
        refuse_chap: false,
        name: Name::new(),
        user: Name::new(),
        remotename: None,
        password: None,
        local: [0; 4],
        remote: None,
        ipcp_accept_local: false,
        ipcp_accept_remote: false,
        ipparam: Name::new(),
        unit: None,
        lcp_echo_interval: 0,
        lcp_echo_failure: 0,
        lcp_restart: 3,
        lcp_max_configure: 10,
        lcp_max_terminate: 2,
        lcp_max_failure: 10,
        ipcp_restart: 3,
        ipcp_max_configure: 10,
        ipcp_max_terminate: 3,
        ipcp_max_failure: 10,
        persist: false,
        demand: false,
        holdoff: 30,
        maxfail: 10,
        idle: 0,
        maxconnect: 0,
    }
}

// A script that sends an A and waits for an O.
fn short_script(alloc: Global) -> Result<Script, Fail> {
    let mut words = Vec::new(alloc);
    let mut first = Vec::new(alloc);
    first.push(b'A')?;
    words.push(Vec::new(alloc))?;
    words.push(first)?;
    let mut second = Vec::new(alloc);
    second.push(b'O')?;
    words.push(second)?;
    Ok(Script::read(alloc, words.as_slice(), 45)?)
}

// The chat hears octets until it is done, and from the next one on they are frames.
#[test]
fn a_chat_and_then_frames(rt: HostRuntime) -> Result<(), Fail> {
    let Some(id) = LinkId::new(1) else {
        return Ok(());
    };
    let alloc = rt.alloc();
    let secrets = SecretsPair {
        pap: Secrets::read(alloc, b"")?,
        chap: Secrets::read(alloc, b"")?,
    };
    let config = usual(Some(short_script(alloc)?));
    let mut link = LinkCore::new(alloc, id, config, secrets, ReplaySpawner::new(), 1, 4096)?;
    assert_eq!(rt; take_span(&mut link, b"\x7eab\x7e"), 4);
    begin_talk(&mut link);
    tick_chat(&mut link);
    assert_eq!(rt; take_span(&mut link, b"O\x7e"), 1);
    assert_eq!(rt; take_span(&mut link, b"\x7eab\x7ecd"), 4);
    assert_eq!(rt; (link.counts.short, link.counts.frames), (1, 0));
    assert_eq!(rt; link.out.take().as_slice(), b"A\r".as_slice());
    Ok(())
}

// What is looked at in which phase.
#[test]
fn the_ways_of_frames(rt: HostRuntime) -> Result<(), Fail> {
    assert!(rt; way_of(false, false, &None, 0xc021) == Way::Lcp);
    assert!(rt; way_of(false, false, &None, 0x80fd) == Way::Discarded);
    assert!(rt; way_of(true, false, &None, 0x0021) == Way::Discarded);
    assert!(rt; way_of(true, true, &None, 0x0021) == Way::Table);
    assert!(rt; way_of(true, true, &None, 0x80fd) == Way::Rejected);
    Ok(())
}
