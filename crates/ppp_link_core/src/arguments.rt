// What the auth scripts are told.
ghost use Rattle.std.specs.Prelude.{◌≡◌};
ghost use Rattle.ppp_link_rules.specs.Wishes.{script_args};

use ppp_base::{LinkId, Name};
use ppp_option_words::{LinkConfig, device_of, home_unit};
use ppp_outside::HookArgs;

// Of a peer that has proved itself by this name.
pub(crate) fn script_args(link: LinkId, config: &LinkConfig, peer: &Name) -> HookArgs
    ensures { result ≡ script_args link config.now peer.now }
{
    HookArgs {
        unit: home_unit(link, config.unit),
        device: device_of(&config.line),
        peer: peer.copy(),
        local: [0; 4],
        remote: [0; 4],
        param: Name::new(),
    }
}
