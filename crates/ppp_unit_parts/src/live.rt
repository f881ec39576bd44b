ghost use Rattle.std.specs.Prelude.{◌≡◌, ◌≤◌, ◌^◌, ◌∷◌, [], List};
ghost use Rattle.ppp_unit_parts.specs.Live.{over_limit, most_of_ours, SomeSession, is_up, most_to_peer, new_live};
ghost use Rattle.ppp_unit_parts.specs.Calls.{around_of, call_of, ip_left, ip_tells, has_finished, live_left, live_tells, or_none, args_of};
ghost use Rattle.ppp_ipcp.specs.Object.{agreed_in};
ghost use Rattle.ppp_ipcp.specs.Session.{Calls};

use crate::member::MemberList;
use crate::outbox::Ending;
use crate::wish::UnitWish;
use ppp_base::{Allow, CloseCause, DEFAULT_MRU, Mrru, Name, Unit};
use ppp_fsm::{Act, Acts, FsmEvent};
use ppp_ipcp::{Addresses, Ipcp, IpcpOut};
use ppp_mp::Sending as PieceSending;
use ppp_outside::HookArgs;
use ppp_packet::Packet;
use ppp_secrets::SecretsPair;

// The number of the state Opened.
const OPENED: u8 = 9;

/// The bundle that lives.
#[derive(Drop)]
pub struct Live {
    /// Its number among the bundles of its unit.
    pub number: u32,
    /// How many marks the log had before the bundle was made.
    pub made_at: u32,
    /// What its maker's options ask.
    pub wish: UnitWish,
    /// Which addresses the peer may have.
    pub allow: Allow,
    /// Some exactly for a multilink bundle.
    pub mrru: Option<Mrru>,
    /// Its links.
    pub members: MemberList,
    /// Its IPCP.
    pub ipcp: Ipcp,
    /// The number of the next piece, and the member that it goes to.
    pub pieces: PieceSending,
    /// IPCP was in Opened at some moment.
    pub was_open: bool,
    /// The peer's Terminate-Request came in Opened.
    pub by_peer: bool,
    /// When IPCP was last opened.
    pub opened_at: u64,
    /// When the last datagram passed, or IPCP was opened after it.
    pub passed_at: u64,
}

/// A call of IPCP.
#[derive(Drop)]
pub enum IpCall {
    /// It is told Open.
    Opens,
    /// It is told Up.
    ComesUp,
    /// It hears a packet.
    Hears(Packet),
    /// It looks at its restart timer.
    Ticks,
}

/// Whether IPCP has finished.
pub fn has_finished(acts: &Acts) -> bool
    ensures { result ≡ has_finished acts.now }
{
    acts.as_slice().iter().any(|act| matches!(act, Act::Tlf))
}

impl Live {
    /// A bundle that is just made.
    pub fn new(number: u32, made_at: u32, wish: UnitWish, mrru: Option<Mrru>, allow: Allow) -> Live
        ensures value { result ≡ new_live number made_at wish mrru allow }
        ensures session { SomeSession result }
    {
        let ipcp = Ipcp::new(wish.ip);
        Live {
            number,
            made_at,
            wish,
            allow,
            mrru,
            members: MemberList::new(),
            ipcp,
            pieces: PieceSending::new(),
            was_open: false,
            by_peer: false,
            opened_at: 0,
            passed_at: 0,
        }
    }

    /// Whether IPCP is in Opened.
    pub fn is_up(&self) -> bool
        ensures { result ≡ is_up self.now }
    {
        self.ipcp.state() == OPENED
    }

    /// The most octets of a datagram to the peer.
    pub fn most_to_peer(&self) -> u16
        ensures { result ≡ most_to_peer self.now }
    {
        if let Some(mrru) = self.mrru {
            return mrru.theirs();
        }
        match self.members.first() {
            Some(member) => member.mru,
            None => DEFAULT_MRU,
        }
    }

    /// The most octets of a packet that was gathered.
    pub fn most_of_ours(&self) -> u16
        ensures most { result ≡ most_of_ours self.now.mrru }
        ensures within { result ≤ 2048 }
    {
        match self.mrru {
            Some(mrru) => mrru.ours(),
            None => 0,
        }
    }

    /// What the scripts are told as IP opens.
    pub fn args(&self, unit: Unit) -> HookArgs
        requires session { SomeSession self.now }
        ensures { result ≡ args_of unit (or_none (agreed_in self.now.ipcp)) self.now }
    {
        let addresses = self.addresses();
        let local = addresses.local;
        let remote = addresses.remote;
        HookArgs {
            unit,
            device: self.wish.device.copy(),
            peer: Name::new(),
            local,
            remote,
            param: self.wish.param.copy(),
        }
    }

    // What was agreed on, or 0.0.0.0.
    fn addresses(&self) -> Addresses
        requires session { SomeSession self.now }
        ensures { result ≡ or_none (agreed_in self.now.ipcp) }
    {
        match self.ipcp.agreed() {
            Some(addresses) => addresses,
            None => Addresses {
                local: [0; 4],
                remote: [0; 4],
            },
        }
    }

    // What IPCP answers to a call, by looking back.
    fn ask_ip(&mut self, call: &IpCall, now: u64, secrets: &SecretsPair) -> IpcpOut
        requires time { now ≤ 2 ^ 56 }
        requires most { 128 ≤ most_to_peer self.old }
        ensures calls { Calls (call_of (around_of secrets.now self.old) call.now) now self.old.ipcp self.new.ipcp result }
        ensures rest { self.new ≡ record self.old { ipcp = self.new.ipcp } }
    {
        let most = self.most_to_peer();
        match call {
            IpCall::Opens => self.ipcp.open(now),
            IpCall::ComesUp => self.ipcp.up(now),
            IpCall::Hears(packet) => self.ipcp.heard(packet, now, secrets, &self.allow, most),
            IpCall::Ticks => self.ipcp.tick(now),
        }
    }

    // What IPCP answers to a call: only one thing is lawful.
    fn call_ip(&mut self, call: &IpCall, now: u64, secrets: &SecretsPair) -> IpcpOut
        requires time { now ≤ 2 ^ 56 }
        requires most { 128 ≤ most_to_peer self.old }
        requires session { SomeSession self.old }
        ensures new { self.new ≡ record self.old { ipcp = ip_left (around_of secrets.now self.old) now call.now self.old.ipcp } }
        ensures told { result ≡ ip_tells (around_of secrets.now self.old) now call.now self.old.ipcp }
        ensures session { SomeSession self.new }
    {
        self.ask_ip(call, now, secrets)
    }

    /// IPCP is called.
    pub fn call(&mut self, call: &IpCall, now: u64, secrets: &SecretsPair) -> IpcpOut
        requires time { now ≤ 2 ^ 56 }
        requires most { 128 ≤ most_to_peer self.old }
        requires session { SomeSession self.old }
        ensures new { self.new ≡ live_left secrets.now now call.now self.old }
        ensures told { result ≡ live_tells secrets.now now call.now self.old }
        ensures session { SomeSession self.new }
    {
        let was_up = self.is_up();
        let out = self.call_ip(call, now, secrets);
        self.by_peer = self.by_peer || (was_up && matches!(out.event, Some(FsmEvent::Rtr)));
        out
    }

    /// The end of a bundle in Opened, where so many seconds have passed since a moment.
    pub fn over_limit(
        &self,
        cause: CloseCause,
        seconds: u16,
        now: u64,
        since: u64,
    ) -> Option<Ending>
        ensures { result ≡ over_limit cause seconds now since self.now }
    {
        let elapsed = now.saturating_sub(since);
        if !self.is_up() || seconds == 0 || elapsed < u64::from(seconds) * 1000 {
            return None;
        }
        Some(Ending {
            cause,
            elapsed_ms: elapsed.min(4_294_967_295) as u32,
        })
    }
}
