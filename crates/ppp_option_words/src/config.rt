ghost use Rattle.std.specs.Prelude.{◌≡◌, ◌≤◌, length};

use crate::link_config::LinkConfig;
use ppp_base::Name;
use ppp_outside::HookPaths;
use std::marker::Model;

/// The most links.
pub const MOST_LINKS: usize = 16;

/// The options of the links, 1 to 16. Contracts see them as their list.
#[derive(Drop)]
pub struct Links {
    links: Vec<LinkConfig>,
}

impl Model for Links {
    ghost use Rattle.std.specs.Prelude.{List, length, ◌≤◌};
    ghost use Rattle.ppp_option_words.specs.LinkValues.{LinkValues};

    ghost Value = { List LinkValues };

    ghost view = { λ links. links.links.items };

    ghost invariant = { λ links. (1 ≤ length links.links.items) × (length links.links.items ≤ 16) };
}

impl Links {
    /// These links.
    pub fn new(links: Vec<LinkConfig>) -> Links
        requires { (1 ≤ length links.items) × (length links.items ≤ MOST_LINKS) }
        ensures { result ≡ links.items }
    {
        Links { links }
    }

    /// The links in order.
    pub fn as_slice(&self) -> &[LinkConfig]
        ensures links { result.now ≡ self.now }
        ensures few { (1 ≤ length self.now) × (length self.now ≤ MOST_LINKS) }
    {
        self.links.as_slice()
    }

    /// The links in order, taken out. It takes no memory.
    pub fn into_vec(self) -> Vec<LinkConfig>
        ensures { result.items ≡ self }
    {
        self.links
    }
}

/// What option words say.
#[derive(Drop)]
pub struct Config {
    /// The links in order.
    pub links: Links,
    /// The path of the control socket.
    pub control: Option<Name>,
    /// The two ends of the packet socket.
    pub packets: Option<Name>,
    /// The secrets file of PAP; where there is none it is `/etc/ppp/pap-secrets`.
    pub pap_file: Option<Name>,
    /// The secrets file of CHAP; where there is none it is `/etc/ppp/chap-secrets`.
    pub chap_file: Option<Name>,
    /// The site scripts.
    pub hooks: HookPaths,
    /// The marks that a log holds, 4,096 to 1,048,576.
    pub loglimit: u32,
}

impl Model for Config {
    ghost use Rattle.std.specs.Prelude.{◌≤◌};
    ghost use Rattle.ppp_option_words.specs.ConfigValues.{ConfigValues};

    ghost Value = { ConfigValues };

    ghost view = { λ config. record {
      links = config.links;
      control = config.control;
      packets = config.packets;
      pap_file = config.pap_file;
      chap_file = config.chap_file;
      hooks = config.hooks;
      loglimit = config.loglimit;
    } };

    ghost invariant = { λ config. (4096 ≤ config.loglimit) × (config.loglimit ≤ 1048576) };
}
