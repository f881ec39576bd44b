ghost use Rattle.std.specs.Prelude.{◌≡◌, ◌+◌, ◌≤◌, ◌<◌, ◌^◌, ◌++◌, ◌∷◌, [], Bool, true, false, Some, None, IfSome, IsSome, List, ℕ, is_some, length, IsOk, OnOk, OnErr, IfErr, ◌↔◌, option_to_list};
ghost use Rattle.ppp_base.specs.declared.hook_target.HookTarget.TheVariants.{Unit as OfUnit};
ghost use Rattle.ppp_base.specs.declared.protocol.TheConstants.{IP};
ghost use Rattle.ppp_mark.specs.Log.{room_of};
ghost use Rattle.ppp_bundle.specs.Closing.{closed, closed_if, end_of};
ghost use Rattle.ppp_unit_parts.specs.Fits.{Fits};
ghost use Rattle.ppp_unit_parts.specs.declared.outbox.TheConstants.{MOST_SENT};
ghost use Rattle.ppp_bundle.specs.Frames.{passed, with_pass};
ghost use Rattle.ppp_bundle.specs.IpCalls.{called, finish_of, finished, followed, sends_all, turned, went_up_of};
ghost use Rattle.ppp_bundle.specs.Replay.{LogSays, SaysSame};
ghost use Rattle.ppp_bundle.specs.Sends.{sends};
ghost use Rattle.ppp_bundle.specs.Sound.{Agrees, Goes, HasRoom, IsTurning, Moves, is_open_in};
ghost use Rattle.ppp_unit_parts.specs.Live.{SomeSession};
ghost use Rattle.ppp_bundle.specs.State.{is_open};
ghost use Rattle.ppp_unit_parts.specs.Live.{is_up, most_to_peer};
ghost use Rattle.ppp_bundle.specs.UnitPart.{made};

use crate::scripts::{end_script, open_ip, put, shut_ip, unmake};
use ppp_base::{CloseCause, Datagram, Unit, protocol};
use ppp_control::Packets;
use ppp_hooks::HookDone;
use ppp_ipcp::IpcpOut;
use ppp_mark::{Mark, ScriptLog};
use ppp_mp::Gather;
use ppp_outside::Spawner;
use ppp_packet::Packet;
use ppp_secrets::SecretsPair;
use ppp_unit_parts::{
    BundleEnd, Ending, GivenList, IpCall, Live, SentList, UnitCounts, UnitWish, has_finished,
};
use std::marker::Model;

// What a unit keeps.
#[derive(Drop)]
pub(crate) struct UnitCore<S: Spawner> {
    pub(crate) unit: Unit,
    pub(crate) time: u64,
    pub(crate) scripts: ScriptLog<S>,
    // How many bundles were made.
    pub(crate) bundles: u32,
    pub(crate) live: Option<Live>,
    pub(crate) gather: Gather,
    pub(crate) sent: SentList,
    pub(crate) given: GivenList,
    pub(crate) ended: Option<BundleEnd>,
    pub(crate) counts: UnitCounts,
}

impl<S: Spawner> Model for UnitCore<S> {
    ghost use Rattle.ppp_bundle.specs.State.{UnitState};

    ghost Value = { UnitState S };

    ghost view = { λ u. record { unit = u.unit; time = u.time; scripts = u.scripts; bundles = u.bundles; live = u.live; gather = u.gather; sent = u.sent; given = u.given; ended = u.ended; counts = u.counts } };
}

// Why a bundle ends whose IPCP has finished.
fn finish_of(by_peer: bool) -> Ending
    ensures { result ≡ finish_of by_peer }
{
    let cause = if by_peer {
        CloseCause::EndedByPeer
    } else {
        CloseCause::IpcpFailed
    };
    Ending {
        cause,
        elapsed_ms: 0,
    }
}

// What is told of an end.
fn end_of(ending: Ending, live: &Live) -> BundleEnd
    ensures { result ≡ end_of ending live.now }
{
    let was_open = live.was_open;
    let cause = ending.cause.number();
    match ending.cause {
        CloseCause::Idle | CloseCause::ConnectTime => BundleEnd {
            cause,
            y: 0,
            elapsed_ms: ending.elapsed_ms,
            live: was_open,
        },
        CloseCause::IpcpFailed | CloseCause::TooManyChanges => BundleEnd {
            cause,
            y: 0,
            elapsed_ms: 0,
            live: was_open,
        },
        CloseCause::EndedByPeer => BundleEnd {
            cause,
            y: 1,
            elapsed_ms: 0,
            live: was_open,
        },
    }
}

impl<S: Spawner> UnitCore<S> {
    // The bundle is closed at once.
    fn close(&mut self, ending: Ending)
        requires room { HasRoom 24 self.old }
        requires agrees { Agrees self.old }
        ensures new { self.new ≡ closed ending self.old }
        ensures agrees { Agrees self.new }
        ensures goes { Goes 20 self.old self.new }
        ensures sent { self.new.sent ≡ self.old.sent }
        ensures time { self.new.time ≡ self.old.time }
        ensures given { self.new.given ≡ self.old.given }
        ensures none { self.new.live ≡ None }
    {
        if let Some(live) = self.live.take() {
            let unit = self.unit;
            let time = self.time;
            put(
                &mut self.scripts,
                Mark::close(time, ending.cause, ending.elapsed_ms),
            );
            unmake(&mut self.scripts, unit, &live, time);
            self.ended = Some(end_of(ending, &live));
        }
    }

    // The bundle is closed, where there is a reason.
    pub(crate) fn close_if(&mut self, ending: Option<Ending>)
        requires room { HasRoom 24 self.old }
        requires agrees { Agrees self.old }
        ensures new { self.new ≡ closed_if ending self.old }
        ensures agrees { Agrees self.new }
        ensures goes { Goes 20 self.old self.new }
        ensures time { self.new.time ≡ self.old.time }
        ensures given { self.new.given ≡ self.old.given }
        ensures none { is_some ending ≡ true → self.new.live ≡ None }
        ensures unchanged { ending ≡ None → self.new ≡ self.old }
    {
        if let Some(ending) = ending {
            self.close(ending);
        }
    }

    // The bundle that lives is this one, and sends IPCP's packets.
    #[tactic(auto, using(crate::proofs::CallFacts::sends_all_is, crate::proofs::CallFacts::still_turning))]
    fn send_all(&mut self, live: Live, packets: &Packets)
        requires room { length self.old.sent + 51 ≤ MOST_SENT }
        requires fits { Fits live }
        ensures new { self.new ≡ sends_all packets.now (record self.old { live = Some live }) }
        ensures rest { self.new ≡ record self.old { live = self.new.live; sent = self.new.sent } }
        ensures turning { (was is : Bool) → IsTurning was is (record self.old { live = Some live }) → IsTurning was is self.new }
        ensures few { length self.new.sent ≤ length self.old.sent + 51 }
    {
        let mut live = live;
        live.send_all(packets, &mut self.sent);
        self.live = Some(live);
    }

    // IPCP has come to Opened.
    fn go_up(&mut self)
        requires room { 4 ≤ room_of self.old.scripts.log }
        requires target { self.old.scripts.machine.target ≡ OfUnit self.old.unit }
        requires closed { is_open_in self.old.scripts ≡ None }
        requires says { LogSays self.old.scripts }
        requires session { IfSome self.old.live SomeSession }
        ensures new { self.new ≡ went_up_of self.old.live self.old }
        ensures moves { Moves 4 self.old.scripts self.new.scripts }
        ensures says { LogSays self.new.scripts }
        ensures same { SaysSame self.old.scripts.log.past self.new.scripts.log.past }
    {
        if let Some(mut live) = self.live.take() {
            let time = self.time;
            let args = live.args(self.unit);
            open_ip(&mut self.scripts, args, time);
            live.was_open = true;
            live.opened_at = time;
            live.passed_at = time;
            self.live = Some(live);
        }
    }

    // The protocol goes from one of open and closed to the other, or stays.
    fn turn(&mut self, was: bool, is: bool)
        requires room { 4 ≤ room_of self.old.scripts.log }
        requires turning { IsTurning was is self.old }
        ensures new { self.new ≡ turned was is self.old }
        ensures agrees { Agrees self.new }
        ensures moves { Moves 4 self.old.scripts self.new.scripts }
        ensures lives { is_some self.new.live ≡ is_some self.old.live }
        ensures sent { self.new.sent ≡ self.old.sent }
        ensures time { self.new.time ≡ self.old.time }
        ensures given { self.new.given ≡ self.old.given }
    {
        match (was, is) {
            (true, false) => shut_ip(&mut self.scripts, self.unit, self.time),
            (false, true) => self.go_up(),
            (false, false) => {}
            (true, true) => {}
        }
    }

    // IPCP was called, and told this.
    fn follow(&mut self, was: bool, live: Live, out: IpcpOut)
        requires room { 40 ≤ room_of self.old.scripts.log }
        requires sent { length self.old.sent + 51 ≤ MOST_SENT }
        requires turning { IsTurning was (is_up live) (record self.old { live = Some live }) }
        ensures new { self.new ≡ followed was live out self.old }
        ensures agrees { Agrees self.new }
        ensures moves { Moves 24 self.old.scripts self.new.scripts }
        ensures time { self.new.time ≡ self.old.time }
        ensures given { self.new.given ≡ self.old.given }
        ensures sent { length self.new.sent ≤ length self.old.sent + 51 }
    {
        let is = live.is_up();
        let by_peer = live.by_peer;
        self.send_all(live, &out.packets);
        self.turn(was, is);
        if has_finished(&out.acts) {
            self.close(finish_of(by_peer));
        }
    }

    // IPCP of the bundle that lives is called.
    pub(crate) fn call(&mut self, call: &IpCall, secrets: &SecretsPair)
        requires room { HasRoom 40 self.old }
        requires sent { length self.old.sent + 51 ≤ MOST_SENT }
        requires agrees { Agrees self.old }
        ensures new { self.new ≡ called secrets.now call.now self.old }
        ensures agrees { Agrees self.new }
        ensures goes { Goes 24 self.old self.new }
        ensures time { self.new.time ≡ self.old.time }
        ensures sent { length self.new.sent ≤ length self.old.sent + 51 }
        ensures given { self.new.given ≡ self.old.given }
    {
        if let Some(mut live) = self.live.take() {
            let was = live.is_up();
            let out = live.call(call, self.time, secrets);
            self.follow(was, live, out);
        }
    }

    // Whether IPCP is in Opened.
    pub(crate) fn is_open(&self) -> bool
        ensures { result ≡ is_open self.now.live }
    {
        match &self.live {
            Some(live) => live.is_up(),
            None => false,
        }
    }

    // The most octets of a datagram to the peer.
    pub(crate) fn most_to_peer(&self) -> u16
        ensures { IfSome self.now.live (λ l. result ≡ most_to_peer l) }
    {
        match &self.live {
            Some(live) => live.most_to_peer(),
            None => 0,
        }
    }

    // A datagram passed.
    pub(crate) fn pass(&mut self)
        ensures { self.new ≡ with_pass self.old }
    {
        let time = self.time;
        if let Some(mut live) = self.live.take() {
            live.passed_at = time;
            self.live = Some(live);
        }
    }

    // A datagram is sent.
    #[tactic(auto, using(crate::proofs::CallFacts::still_agrees))]
    pub(crate) fn send_datagram(&mut self, datagram: &Datagram)
        requires room { length self.old.sent + 17 ≤ MOST_SENT }
        requires agrees { Agrees self.old }
        requires whole { IfSome self.old.live (λ l. l.mrru ≡ None → length datagram.now ≤ 1508) }
        ensures new { self.new ≡ sends IP datagram.now self.old }
        ensures agrees { Agrees self.new }
        ensures rest { self.new ≡ record self.old { live = self.new.live; sent = self.new.sent } }
        ensures lives { is_some self.new.live ≡ is_some self.old.live }
    {
        if let Some(mut live) = self.live.take() {
            live.send(protocol::IP, datagram.as_slice(), &mut self.sent);
            self.live = Some(live);
        }
    }
}
