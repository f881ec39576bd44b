ghost use Rattle.std.specs.Prelude.{◌≡◌};

use ppp_base::Name;

/// Where the site scripts lie. An empty path is that of no script.
#[derive(Debug, PartialEq, Eq, Drop)]
pub struct HookPaths {
    pub ip_up: Name,
    pub ip_down: Name,
    pub auth_up: Name,
    pub auth_down: Name,
}

impl HookPaths {
    /// The same paths again. It takes no memory.
    pub fn copy(&self) -> HookPaths
        ensures { result ≡ self.now }
    {
        HookPaths {
            ip_up: self.ip_up.copy(),
            ip_down: self.ip_down.copy(),
            auth_up: self.auth_up.copy(),
            auth_down: self.auth_down.copy(),
        }
    }
}
