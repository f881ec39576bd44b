ghost use Rattle.std.specs.Prelude.{◌≡◌, IfOk};
ghost use Rattle.std.specs.Option.{option_copied};

use ppp_base::{Disc, Name, NoMemory, Unit};
use ppp_chat::Script;
use ppp_outside::LineWords;
use std::alloc::Global;
use std::marker::Model;

/// The options of one link. A field has the name of its word, with `_` for `-`.
#[derive(Drop)]
pub struct LinkConfig {
    /// What is dialled: the word `socket` or `pty`.
    pub line: LineWords,
    /// `connect`: the chat before the link.
    pub script: Option<Script>,
    /// 128 to 1500.
    pub mru: u16,
    /// All `asyncmap` words joined: the octets below 32 that the peer is to escape, a bit for each.
    pub asyncmap: u32,
    pub default_asyncmap: bool,
    pub nomagic: bool,
    pub nopcomp: bool,
    pub noaccomp: bool,
    pub multilink: bool,
    /// 1500 to 2048.
    pub mrru: u16,
    /// `endpoint`: a discriminator of class 1.
    pub endpoint: Option<Disc>,
    /// The peer must prove itself. Both methods are allowed where neither is required.
    pub auth: bool,
    pub require_pap: bool,
    pub require_chap: bool,
    pub refuse_pap: bool,
    pub refuse_chap: bool,
    pub name: Name,
    /// The last `user`, or else the name.
    pub user: Name,
    pub remotename: Option<Name>,
    pub password: Option<Name>,
    /// Our address: A of the last word `A:B`.
    pub local: [u8; 4],
    /// The peer's address: B of the last word `A:B`.
    pub remote: Option<[u8; 4]>,
    pub ipcp_accept_local: bool,
    pub ipcp_accept_remote: bool,
    pub ipparam: Name,
    pub unit: Option<Unit>,
    pub lcp_echo_interval: u16,
    pub lcp_echo_failure: u8,
    /// 1 to 255.
    pub lcp_restart: u8,
    /// 1 to 255.
    pub lcp_max_configure: u8,
    /// 1 to 255.
    pub lcp_max_terminate: u8,
    /// 1 to 255.
    pub lcp_max_failure: u8,
    /// 1 to 255.
    pub ipcp_restart: u8,
    /// 1 to 255.
    pub ipcp_max_configure: u8,
    /// 1 to 255.
    pub ipcp_max_terminate: u8,
    /// 1 to 255.
    pub ipcp_max_failure: u8,
    pub persist: bool,
    pub demand: bool,
    pub holdoff: u16,
    pub maxfail: u16,
    pub idle: u16,
    pub maxconnect: u16,
}

impl Model for LinkConfig {
    ghost use Rattle.std.specs.Prelude.{◌≤◌};
    ghost use Rattle.ppp_option_words.specs.LinkValues.{LinkValues};

    ghost Value = { LinkValues };

    ghost view = { λ link. record {
      line = link.line;
      script = link.script;
      mru = link.mru;
      asyncmap = link.asyncmap;
      default_asyncmap = link.default_asyncmap;
      nomagic = link.nomagic;
      nopcomp = link.nopcomp;
      noaccomp = link.noaccomp;
      multilink = link.multilink;
      mrru = link.mrru;
      endpoint = link.endpoint;
      auth = link.auth;
      require_pap = link.require_pap;
      require_chap = link.require_chap;
      refuse_pap = link.refuse_pap;
      refuse_chap = link.refuse_chap;
      name = link.name;
      user = link.user;
      remotename = link.remotename;
      password = link.password;
      local = link.local;
      remote = link.remote;
      ipcp_accept_local = link.ipcp_accept_local;
      ipcp_accept_remote = link.ipcp_accept_remote;
      ipparam = link.ipparam;
      unit = link.unit;
      lcp_echo_interval = link.lcp_echo_interval;
      lcp_echo_failure = link.lcp_echo_failure;
      lcp_restart = link.lcp_restart;
      lcp_max_configure = link.lcp_max_configure;
      lcp_max_terminate = link.lcp_max_terminate;
      lcp_max_failure = link.lcp_max_failure;
      ipcp_restart = link.ipcp_restart;
      ipcp_max_configure = link.ipcp_max_configure;
      ipcp_max_terminate = link.ipcp_max_terminate;
      ipcp_max_failure = link.ipcp_max_failure;
      persist = link.persist;
      demand = link.demand;
      holdoff = link.holdoff;
      maxfail = link.maxfail;
      idle = link.idle;
      maxconnect = link.maxconnect;
    } };

    ghost invariant = { λ link. (128 ≤ link.mru) × (link.mru ≤ 1500)
        × (1500 ≤ link.mrru) × (link.mrru ≤ 2048)
        × (1 ≤ link.lcp_restart) × (link.lcp_restart ≤ 255)
        × (1 ≤ link.lcp_max_configure) × (link.lcp_max_configure ≤ 255)
        × (1 ≤ link.lcp_max_terminate) × (link.lcp_max_terminate ≤ 255)
        × (1 ≤ link.lcp_max_failure) × (link.lcp_max_failure ≤ 255)
        × (1 ≤ link.ipcp_restart) × (link.ipcp_restart ≤ 255)
        × (1 ≤ link.ipcp_max_configure) × (link.ipcp_max_configure ≤ 255)
        × (1 ≤ link.ipcp_max_terminate) × (link.ipcp_max_terminate ≤ 255)
        × (1 ≤ link.ipcp_max_failure) × (link.ipcp_max_failure ≤ 255) };
}

impl LinkConfig {
    /// The same options again.
    pub fn copy(&self, alloc: Global) -> Result<LinkConfig, NoMemory>
        ensures { IfOk result (λ link. link ≡ self.now) }
    {
        let script = copied_script(alloc, self.script.as_ref())?;
        Ok(LinkConfig {
            line: self.line.copy(),
            script,
            mru: self.mru,
            asyncmap: self.asyncmap,
            default_asyncmap: self.default_asyncmap,
            nomagic: self.nomagic,
            nopcomp: self.nopcomp,
            noaccomp: self.noaccomp,
            multilink: self.multilink,
            mrru: self.mrru,
            endpoint: copied_disc(self.endpoint.as_ref()),
            auth: self.auth,
            require_pap: self.require_pap,
            require_chap: self.require_chap,
            refuse_pap: self.refuse_pap,
            refuse_chap: self.refuse_chap,
            name: self.name.copy(),
            user: self.user.copy(),
            remotename: copied_name(self.remotename.as_ref()),
            password: copied_name(self.password.as_ref()),
            local: self.local,
            remote: self.remote,
            ipcp_accept_local: self.ipcp_accept_local,
            ipcp_accept_remote: self.ipcp_accept_remote,
            ipparam: self.ipparam.copy(),
            unit: self.unit,
            lcp_echo_interval: self.lcp_echo_interval,
            lcp_echo_failure: self.lcp_echo_failure,
            lcp_restart: self.lcp_restart,
            lcp_max_configure: self.lcp_max_configure,
            lcp_max_terminate: self.lcp_max_terminate,
            lcp_max_failure: self.lcp_max_failure,
            ipcp_restart: self.ipcp_restart,
            ipcp_max_configure: self.ipcp_max_configure,
            ipcp_max_terminate: self.ipcp_max_terminate,
            ipcp_max_failure: self.ipcp_max_failure,
            persist: self.persist,
            demand: self.demand,
            holdoff: self.holdoff,
            maxfail: self.maxfail,
            idle: self.idle,
            maxconnect: self.maxconnect,
        })
    }
}

/// The same script again.
pub fn copied_script(alloc: Global, script: Option<&Script>) -> Result<Option<Script>, NoMemory>
    ensures { IfOk result (λ copy. copy ≡ option_copied script.entry) }
{
    match script {
        Some(script) => Ok(Some(script.copy(alloc)?)),
        None => Ok(None),
    }
}

/// The same name again.
pub fn copied_name(name: Option<&Name>) -> Option<Name>
    ensures { result ≡ option_copied name.entry }
{
    match name {
        Some(name) => Some(name.copy()),
        None => None,
    }
}

/// The same discriminator again.
pub fn copied_disc(disc: Option<&Disc>) -> Option<Disc>
    ensures { result ≡ option_copied disc.entry }
{
    match disc {
        Some(disc) => Some(disc.copy()),
        None => None,
    }
}
