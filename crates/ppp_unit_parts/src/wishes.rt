//! What the options of a link ask of the bundle that it makes. None of these calls takes memory.

ghost use Rattle.std.specs.Prelude.{◌≡◌};
ghost use Rattle.ppp_unit_parts.specs.Wishes.{IsUnitWish, ip_wish};

use crate::wish::UnitWish;
use ppp_fsm::Limits;
use ppp_ipcp::IpWish;
use ppp_option_words::{LinkConfig, device_of};

// What the options ask of IPCP.
fn ip_wish(config: &LinkConfig) -> IpWish
    ensures ip { result ≡ ip_wish result.limits config.now }
    ensures configure { result.limits.configure ≡ config.now.ipcp_max_configure }
    ensures terminate { result.limits.terminate ≡ config.now.ipcp_max_terminate }
{
    IpWish {
        local: config.local,
        remote: config.remote,
        accept_local: config.ipcp_accept_local,
        accept_remote: config.ipcp_accept_remote,
        restart_s: config.ipcp_restart,
        limits: Limits {
            configure: config.ipcp_max_configure,
            terminate: config.ipcp_max_terminate,
        },
        max_failure: config.ipcp_max_failure,
    }
}

/// What the options of a link ask of the bundle that it makes.
pub fn unit_wish(config: &LinkConfig) -> UnitWish
    ensures { IsUnitWish config.now result }
{
    UnitWish {
        ip: ip_wish(config),
        idle_s: config.idle,
        maxconnect_s: config.maxconnect,
        device: device_of(&config.line),
        param: config.ipparam.copy(),
    }
}
