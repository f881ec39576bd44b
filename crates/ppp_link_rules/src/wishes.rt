//! What the options of a link ask of its parts. None of these calls takes memory.

ghost use Rattle.std.specs.Prelude.{◌≡◌, ◌≤◌};
ghost use Rattle.ppp_base.specs.declared.mrru.TheConstants.{DEFAULT_MRU, LEAST_MRU, LEAST_MRRU, MOST_MRRU};
ghost use Rattle.ppp_link_rules.specs.Wishes.{IsWish, auth_config, dial_policy, wants};

use ppp_auth::AuthConfig;
use ppp_base::{Disc, Name};
use ppp_dial::DialPolicy;
use ppp_fsm::Limits;
use ppp_lcp::LcpWish;
use ppp_option_words::LinkConfig;

// Whether a method is wanted: where another one is required alone, it isn't.
fn wants(auth: bool, required: bool, other: bool) -> bool
    ensures { result ≡ wants auth required other }
{
    auth && (required || !other)
}

// The same name again, if there is one.
fn copied_name(name: &Option<Name>) -> Option<Name>
    ensures { result ≡ name.now }
{
    match name {
        Some(name) => Some(name.copy()),
        None => None,
    }
}

// The same discriminator again, if there is one.
fn copied_disc(disc: &Option<Disc>) -> Option<Disc>
    ensures { result ≡ disc.now }
{
    match disc {
        Some(disc) => Some(disc.copy()),
        None => None,
    }
}

/// What the options ask of LCP.
pub fn lcp_wish(config: &LinkConfig) -> LcpWish
    ensures is { IsWish config.now result }
    ensures mru { (LEAST_MRU ≤ result.mru) × (result.mru ≤ DEFAULT_MRU) }
    ensures mrru { (LEAST_MRRU ≤ result.mrru) × (result.mrru ≤ MOST_MRRU) }
    ensures restart { 1 ≤ result.restart_s }
    ensures max_failure { 1 ≤ result.max_failure }
{
    let limits = Limits {
        configure: config.lcp_max_configure,
        terminate: config.lcp_max_terminate,
    };
    LcpWish {
        mru: config.mru,
        map: config.asyncmap,
        default_map: config.default_asyncmap,
        magic: !config.nomagic,
        pfc: !config.nopcomp,
        acfc: !config.noaccomp,
        multilink: config.multilink,
        mrru: config.mrru,
        disc: copied_disc(&config.endpoint),
        want_pap: wants(config.auth, config.require_pap, config.require_chap),
        want_chap: wants(config.auth, config.require_chap, config.require_pap),
        refuse_pap: config.refuse_pap,
        refuse_chap: config.refuse_chap,
        echo_interval_s: config.lcp_echo_interval,
        echo_failure: config.lcp_echo_failure,
        restart_s: config.lcp_restart,
        limits,
        max_failure: config.lcp_max_failure,
    }
}

/// Under which names the ends of the link prove themselves.
pub fn auth_config(config: &LinkConfig) -> AuthConfig
    ensures { result ≡ auth_config config.now }
{
    AuthConfig {
        name: config.name.copy(),
        user: config.user.copy(),
        password: copied_name(&config.password),
        remotename: copied_name(&config.remotename),
    }
}

/// When the link dials.
pub fn dial_policy(config: &LinkConfig) -> DialPolicy
    ensures { result ≡ dial_policy config.now }
{
    DialPolicy {
        persist: config.persist,
        demand: config.demand,
        holdoff_s: config.holdoff,
        maxfail: config.maxfail,
    }
}
