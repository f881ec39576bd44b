ghost use Rattle.std.specs.Prelude.{◌≡◌, ◌≢◌, ◌↔◌, Some, None, IsTrue, Contains, find, slice_get};
ghost use Rattle.ppp_timer.specs.Due.{Moments, no_moments, moment_of, with_moment, has_come, slots, due_slots};
ghost use Rattle.ppp_timer.specs.declared.slot.Slot.{Slot};

use crate::slot::Slot;
use std::marker::Model;

/// A moment for each slot, or none, in milliseconds. Contracts see it as these moments.
#[derive(Clone, Copy, Debug, PartialEq, Eq)]
pub struct Deadlines {
    lcp_restart: Option<u64>,
    auth_restart: Option<u64>,
    auth_end: Option<u64>,
    echo: Option<u64>,
    hold: Option<u64>,
    ipcp_restart: Option<u64>,
    idle: Option<u64>,
    connect: Option<u64>,
}

impl Model for Deadlines {
    ghost use Rattle.ppp_timer.specs.Due.{Moments};

    ghost Value = { Moments };

    ghost view = { λ d. record {
      lcp_restart = d.lcp_restart;
      auth_restart = d.auth_restart;
      auth_end = d.auth_end;
      echo = d.echo;
      hold = d.hold;
      ipcp_restart = d.ipcp_restart;
      idle = d.idle;
      connect = d.connect;
    } };

    ghost inverse = { λ held. record {
      lcp_restart = held.lcp_restart;
      auth_restart = held.auth_restart;
      auth_end = held.auth_end;
      echo = held.echo;
      hold = held.hold;
      ipcp_restart = held.ipcp_restart;
      idle = held.idle;
      connect = held.connect;
    } };
}

/// Whether a moment, in milliseconds, is at or before `now`. None has not come.
pub fn has_come(moment: Option<u64>, now: u64) -> bool
    ensures { result ≡ has_come now moment }
{
    match moment {
        Some(moment) => moment <= now,
        None => false,
    }
}

impl Deadlines {
    /// No moment for any slot.
    pub fn new() -> Deadlines
        ensures now { result ≡ no_moments }
        ensures none { (slot : Slot) → moment_of result slot ≡ None }
    {
        Deadlines {
            lcp_restart: None,
            auth_restart: None,
            auth_end: None,
            echo: None,
            hold: None,
            ipcp_restart: None,
            idle: None,
            connect: None,
        }
    }

    /// Sets the moment of a slot, in milliseconds.
    pub fn set(&mut self, slot: Slot, at: u64)
        ensures now { self.new ≡ with_moment self.old slot (Some at) }
        ensures there { moment_of self.new slot ≡ Some at }
        ensures others { (other : Slot) → other ≢ slot → moment_of self.new other ≡ moment_of self.old other }
    {
        self.put(slot, Some(at));
    }

    /// Leaves a slot without a moment.
    pub fn clear(&mut self, slot: Slot)
        ensures now { self.new ≡ with_moment self.old slot None }
        ensures there { moment_of self.new slot ≡ None }
        ensures others { (other : Slot) → other ≢ slot → moment_of self.new other ≡ moment_of self.old other }
    {
        self.put(slot, None);
    }

    /// The first slot, in the order of [`Slot`], whose moment is at or before `now`. None where there is none.
    pub fn due(&self, now: u64) -> Option<Slot>
        ensures { result ≡ slice_get (due_slots self.now now) 0 }
    {
        self.find_due(now)
    }

    // The first slot whose moment has come.
    fn find_due(&self, now: u64) -> Option<Slot>
        ensures { result ≡ find (λ slot. has_come now (moment_of self.now slot)) slots }
    {
        Slot::ALL
            .iter()
            .copied()
            .find(|slot| self.is_due(*slot, now))
    }

    /// Whether a slot's moment is at or before `now`.
    pub fn is_due(&self, slot: Slot, now: u64) -> bool
        ensures value { result ≡ has_come now (moment_of self.now slot) }
        ensures among { IsTrue result ↔ Contains (due_slots self.now now) slot }
    {
        has_come(self.moment(slot), now)
    }

    /// The moment of a slot, in milliseconds, where it has one.
    pub fn moment(&self, slot: Slot) -> Option<u64>
        ensures { result ≡ moment_of self.now slot }
    {
        match slot {
            Slot::LcpRestart => self.lcp_restart,
            Slot::AuthRestart => self.auth_restart,
            Slot::AuthEnd => self.auth_end,
            Slot::Echo => self.echo,
            Slot::Hold => self.hold,
            Slot::IpcpRestart => self.ipcp_restart,
            Slot::Idle => self.idle,
            Slot::Connect => self.connect,
        }
    }

    // Leaves a slot with this moment.
    fn put(&mut self, slot: Slot, moment: Option<u64>)
        ensures now { self.new ≡ with_moment self.old slot moment }
    {
        match slot {
            Slot::LcpRestart => self.lcp_restart = moment,
            Slot::AuthRestart => self.auth_restart = moment,
            Slot::AuthEnd => self.auth_end = moment,
            Slot::Echo => self.echo = moment,
            Slot::Hold => self.hold = moment,
            Slot::IpcpRestart => self.ipcp_restart = moment,
            Slot::Idle => self.idle = moment,
            Slot::Connect => self.connect = moment,
        }
    }
}
