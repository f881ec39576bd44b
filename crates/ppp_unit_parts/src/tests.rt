use crate::unit_wish;
use ppp_base::{Name, Octets};
use ppp_option_words::LinkConfig;
use ppp_outside::LineWords;
use std::test::Fail;

// The options `10.0.0.1:10.0.0.2 idle 5 maxconnect 60 ipparam x`, over a line.
fn config(line: LineWords) -> LinkConfig {
    LinkConfig {
        line,
        script: None,
        mru: 1500,
        asyncmap: 0,
        default_asyncmap: false,
        nomagic: false,
        nopcomp: false,
        noaccomp: false,
        multilink: false,
        mrru: 1500,
        endpoint: None,
        auth: false,
        require_pap: false,
        require_chap: false,
        refuse_pap: false,
        refuse_chap: false,
        name: Name::new(),
        user: Name::new(),
        remotename: None,
        password: None,
        local: [10, 0, 0, 1],
        remote: Some([10, 0, 0, 2]),
        ipcp_accept_local: false,
        ipcp_accept_remote: true,
        ipparam: Name::from_octets(b"x").unwrap_or(Name::new()),
        unit: None,
        lcp_echo_interval: 0,
        lcp_echo_failure: 0,
        lcp_restart: 3,
        lcp_max_configure: 10,
        lcp_max_terminate: 3,
        lcp_max_failure: 10,
        ipcp_restart: 4,
        ipcp_max_configure: 9,
        ipcp_max_terminate: 2,
        ipcp_max_failure: 8,
        persist: false,
        demand: false,
        holdoff: 30,
        maxfail: 10,
        idle: 5,
        maxconnect: 60,
    }
}

// Each field of a wish is what its option says; a socket's text is the device, and a command's device is `pty`.
#[test]
fn a_wish_is_what_the_options_say(rt: HostRuntime) -> Result<(), Fail> {
    let text = Octets::from_octets(b"h:1").ok_or("text")?;
    let wish = unit_wish(&config(LineWords::Socket(text)));
    assert_eq!(rt; wish.ip.local, [10, 0, 0, 1]);
    assert_eq!(rt; wish.ip.remote, Some([10, 0, 0, 2]));
    assert_eq!(rt; wish.ip.accept_local, false);
    assert_eq!(rt; wish.ip.accept_remote, true);
    assert_eq!(rt; wish.ip.restart_s, 4);
    assert_eq!(rt; wish.ip.limits.configure, 9);
    assert_eq!(rt; wish.ip.limits.terminate, 2);
    assert_eq!(rt; wish.ip.max_failure, 8);
    assert_eq!(rt; wish.idle_s, 5);
    assert_eq!(rt; wish.maxconnect_s, 60);
    assert_eq!(rt; wish.device.as_slice(), b"h:1".as_slice());
    assert_eq!(rt; wish.param.as_slice(), b"x".as_slice());
    let pty = unit_wish(&config(LineWords::Pty(Octets::new())));
    assert_eq!(rt; pty.device.as_slice(), b"pty".as_slice());
    Ok(())
}
