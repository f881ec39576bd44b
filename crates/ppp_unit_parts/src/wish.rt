ghost use Rattle.std.specs.Prelude.{◌≡◌, ◌≤◌};

use ppp_base::Name;
use ppp_ipcp::IpWish;

/// What the options of a bundle's maker ask of the bundle.
#[derive(Drop)]
pub struct UnitWish {
    /// What is asked of IPCP.
    pub ip: IpWish,
    /// Seconds without a datagram after which the bundle is closed. 0: it isn't.
    pub idle_s: u16,
    /// Seconds from the opening of IPCP after which the bundle is closed. 0: it isn't.
    pub maxconnect_s: u16,
    /// The device that the scripts are told.
    pub device: Name,
    /// The option `ipparam`, empty where there is none.
    pub param: Name,
    ghost restart: { 1 ≤ ip.restart_s },
    ghost max_failure: { 1 ≤ ip.max_failure },
}

impl UnitWish {
    /// The same wish again. It takes no memory.
    pub fn copy(&self) -> UnitWish
        ensures { result ≡ self.now }
    {
        UnitWish {
            ip: self.ip,
            idle_s: self.idle_s,
            maxconnect_s: self.maxconnect_s,
            device: self.device.copy(),
            param: self.param.copy(),
        }
    }
}
