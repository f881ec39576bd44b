ghost use Rattle.std.specs.Prelude.{◌≡◌, ℕ, ◌+◌, ◌<◌, ◌≤◌, ◌^◌, ◌↔◌, [], ◌∷◌, Some, None, IfSome, IfOk, IfNone, IsSome, OnSome, MatchOption, is_some, length, option_map, take};
ghost use Rattle.ppp_base.specs.declared.hook_target.HookTarget.TheVariants.{Unit as OfUnit};
ghost use Rattle.ppp_base.specs.Stepped.{IsTaken, OnTaken, IfStale};
ghost use Rattle.ppp_hooks.specs.HookCounts.{JobCounts, MachineCounts};
ghost use Rattle.ppp_hooks.specs.HookFacts.{no_facts};
ghost use Rattle.ppp_hooks.specs.HookPast.{ends_in, greatest_in, not_started_in, running_in, starts_in};
ghost use Rattle.ppp_hooks.specs.HookWords.{words_of_start};
ghost use Rattle.ppp_mark.specs.Log.{no_marks};
ghost use Rattle.ppp_mark.specs.Scripts.{LogLaw, LogSettled, said_in};
ghost use Rattle.ppp_bundle.specs.Lives.{GoesOnAll, HasBegun, HasItsHistory};
ghost use Rattle.ppp_bundle.specs.MayStand.{AllMayStand, mrru_of};
ghost use Rattle.ppp_bundle.specs.Replay.{Replay, bundles_in, openings_in};
ghost use Rattle.ppp_bundle.specs.Sound.{IsGoing, IsSound};
ghost use Rattle.ppp_bundle.specs.State.{is_open, members_of};
ghost use Rattle.ppp_bundle.specs.UnitPart.{EventCounts, IsFresh, IsLinkNumber, MayCome, UnitPart, after_event};

use crate::event::BundleEvent;
use crate::unit_state::UnitCore;
use ppp_base::{Datagram, HookTarget, LEAST_MRRU, Mrru, NoMemory, Stepped, Unit};
use ppp_hooks::HookJob;
use ppp_mark::{Log, ScriptLog};
use ppp_mp::{Gather, Given};
use ppp_outside::Spawner;
use ppp_secrets::SecretsPair;
use ppp_unit_parts::{BundleEnd, GivenList, Member, Sending, SentList, UnitCounts};
use std::alloc::Global;
use std::marker::Model;

/// One unit: its log with its scripts, and the bundle that lives, where one does.
#[derive(Drop)]
pub struct Bundle<S: Spawner> {
    core: UnitCore<S>,
    // What the gatherer gave by the last piece or leave.
    packets: Given,
}

impl<S: Spawner> Model for Bundle<S> {
    ghost use Rattle.ppp_bundle.specs.Lives.{IsUnit};
    ghost use Rattle.ppp_bundle.specs.State.{UnitState};

    ghost Value = { UnitState S };

    ghost view = { λ b. b.core };

    ghost invariant = { λ b. IsUnit b.core };
}

impl<S: Spawner> UnitCore<S> {
    // One event: what the gatherer gives by it, what it does, and then the marks are counted.
    #[tactic(auto, using(crate::proofs::AskFacts::part_of, crate::proofs::AskFacts::sound_asked, crate::proofs::AskFacts::may_asked, crate::proofs::AskFacts::fresh_asked, crate::proofs::AskFacts::stale_same))]
    fn step(
        &mut self,
        event: BundleEvent<S>,
        secrets: &SecretsPair,
        packets: &mut Given,
    ) -> Stepped<BundleEvent<S>>
        requires sound { IsSound self.old }
        requires may { MayCome event self.old }
        requires sent { self.old.sent ≡ [] }
        requires given { self.old.given ≡ [] }
        ensures taken { IsTaken result ↔ IsFresh event self.old }
        ensures part { OnTaken result (UnitPart secrets.now event self.old self.new) }
        ensures counts { (t f : ℕ) → EventCounts S.tries S.faults t f event self.old → OnTaken result (MachineCounts S.tries S.faults t f self.new.scripts.machine) }
        ensures stale { IfStale result (λ back. (back ≡ event) × (self.new ≡ self.old)) }
        ensures sound { IsSound self.new }
        ensures link { IsLinkNumber event }
    {
        let count = self.ask(&event, packets);
        let ended = self.ended;
        self.ended = None;
        match self.apply(event, secrets, packets, count) {
            Stepped::Taken => {
                self.look();
                Stepped::Taken
            }
            Stepped::Stale(back) => {
                self.ended = ended;
                Stepped::Stale(back)
            }
        }
    }

    // What an event does, where the gatherer gave these packets, the first so many.
    #[tactic(auto, using(crate::proofs::SoundFacts::going, crate::proofs::SoundFacts::over_going, crate::proofs::CountFacts::moved_counts))]
    fn apply(
        &mut self,
        event: BundleEvent<S>,
        secrets: &SecretsPair,
        packets: &Given,
        count: u8,
    ) -> Stepped<BundleEvent<S>>
        requires sound { IsSound self.old }
        requires may { MayCome event self.old }
        requires sent { self.old.sent ≡ [] }
        requires given { self.old.given ≡ [] }
        requires some { count ≤ length packets.now }
        requires few { count ≤ 128 }
        ensures taken { IsTaken result ↔ IsFresh event self.old }
        ensures new { OnTaken result (self.new ≡ after_event secrets.now event (take count packets.now) self.old) }
        ensures going { OnTaken result (IsGoing self.new) }
        ensures counts { (t f : ℕ) → EventCounts S.tries S.faults t f event self.old → OnTaken result (MachineCounts S.tries S.faults t f self.new.scripts.machine) }
        ensures stale { IfStale result (λ back. (back ≡ event) × (self.new ≡ self.old)) }
    {
        match event {
            BundleEvent::Make {
                number,
                maker,
                wish,
                mrru,
                allow,
            } => self.make(number, maker, wish, mrru, allow),
            BundleEvent::In { link, stay, mru } => self.enter(link, stay, mru, secrets),
            BundleEvent::Out { link, stay } => self.leave(link, stay, secrets, packets, count),
            BundleEvent::Frame {
                link,
                protocol,
                information,
            } => self.frame(link, protocol, &information, secrets, packets, count),
            BundleEvent::Datagram(datagram) => self.carry(&datagram),
            BundleEvent::Tick(now) => self.tick(now, secrets),
            BundleEvent::HookOver(done) => {
                return match self.over(done) {
                    Ok(()) => Stepped::Taken,
                    Err(done) => Stepped::Stale(BundleEvent::HookOver(done)),
                };
            }
        }
        Stepped::Taken
    }
}

impl<S: Spawner> Bundle<S> {
    /// A unit without a bundle, whose log has room for so many marks. All memory that is ever needed is taken here.
    #[tactic(auto, using(crate::proofs::UnitFacts::new_unit))]
    pub fn new(alloc: Global, unit: Unit, spawner: S, loglimit: u32) -> Result<Bundle<S>, NoMemory>
        requires limit { (4096 ≤ loglimit) × (loglimit ≤ 1048576) }
        requires tries { S.tries spawner < 2 ^ 63 }
        requires faults { S.faults spawner < 2 ^ 63 }
        ensures unit { IfOk result (λ b. b.unit ≡ unit) }
        ensures time { IfOk result (λ b. b.time ≡ 0) }
        ensures scripts { IfOk result (λ b. b.scripts ≡ record { machine = record { target = OfUnit unit; facts = no_facts; spawner = Some spawner }; log = no_marks loglimit }) }
        ensures bundles { IfOk result (λ b. b.bundles ≡ 0) }
        ensures live { IfOk result (λ b. b.live ≡ None) }
        ensures counts_from { IfOk result (λ b. MachineCounts S.tries S.faults (S.tries spawner) (S.faults spawner) b.scripts.machine) }
        ensures waits { IfOk result (λ b. (b.sent ≡ []) × (b.given ≡ []) × (b.ended ≡ None)) }
        ensures counts { IfOk result (λ b. b.counts ≡ record { not_open = 0; stranger = 0; too_big = 0; bad_inner = 0 }) }
    {
        let scripts = ScriptLog::new(alloc, HookTarget::Unit(unit), spawner, loglimit)?;
        let gather = Gather::new(alloc, LEAST_MRRU)?;
        Ok(Bundle {
            core: UnitCore {
                unit,
                time: 0,
                scripts,
                bundles: 0,
                live: None,
                gather,
                sent: SentList::new(alloc)?,
                given: GivenList::new(alloc)?,
                ended: None,
                counts: UnitCounts {
                    not_open: 0,
                    stranger: 0,
                    too_big: 0,
                    bad_inner: 0,
                },
            },
            packets: Given::new(alloc)?,
        })
    }

    /// One event. A script's end that isn't the running job's is stale: it comes back, and nothing changes. It takes no
    /// memory.
    #[tactic(auto, using(crate::proofs::UnitFacts::unit_after, crate::proofs::UnitFacts::goes_after, crate::proofs::UnitFacts::begun_after))]
    pub fn step(&mut self, event: BundleEvent<S>, secrets: &SecretsPair) -> Stepped<BundleEvent<S>>
        requires may { MayCome event self.old }
        requires sent { self.old.sent ≡ [] }
        requires given { self.old.given ≡ [] }
        ensures taken { IsTaken result ↔ IsFresh event self.old }
        ensures part { OnTaken result (UnitPart secrets.now event self.old self.new) }
        ensures begun { OnTaken result (HasBegun event self.old self.new) }
        ensures goes { OnTaken result (GoesOnAll secrets.now event self.old self.new) }
        ensures counts { (t f : ℕ) → EventCounts S.tries S.faults t f event self.old → OnTaken result (MachineCounts S.tries S.faults t f self.new.scripts.machine) }
        ensures stale { IfStale result (λ back. (back ≡ event) × (self.new ≡ self.old)) }
    {
        self.core.step(event, secrets, &mut self.packets)
    }

    /// The script that was started, if its job hasn't been taken. The spawner goes with it. It takes no memory.
    #[tactic(auto, using(crate::proofs::UnitFacts::without_job))]
    pub fn take_job(&mut self) -> Option<HookJob<S>>
        ensures some { IsSome result ↔ (IsSome self.old.scripts.machine.spawner × (ends_in (said_in self.old.scripts.log.past) < starts_in (said_in self.old.scripts.log.past))) }
        ensures job { IfSome result (λ job. (job.target ≡ self.old.scripts.machine.target) × (job.number ≡ starts_in (said_in self.old.scripts.log.past))
            × (job.not_started ≡ not_started_in (said_in self.old.scripts.log.past))) }
        ensures words { IfSome result (λ job. words_of_start self.old.scripts.machine.target self.old.scripts.machine.facts.last ≡ Some job.words) }
        ensures spawner { IfSome result (λ job. self.old.scripts.machine.spawner ≡ Some job.spawner) }
        ensures taken { OnSome result (self.new ≡ record self.old { scripts = record self.old.scripts { machine = record self.old.scripts.machine { spawner = None } } }) }
        ensures none { IfNone result (self.new ≡ self.old) }
        ensures counts { (t f : ℕ) → MachineCounts S.tries S.faults t f self.old.scripts.machine → IfSome result (JobCounts S.tries S.faults t f) }
    {
        self.core.scripts.take_job()
    }

    /// The first of what is to be sent. None exactly where nothing waits.
    pub fn take_sent(&mut self) -> Option<Sending>
        ensures first { MatchOption result (self.old.sent ≡ []) (λ first. self.old.sent ≡ first ∷ self.new.sent) }
        ensures none { IfNone result (self.new ≡ self.old) }
        ensures rest { self.new ≡ record self.old { sent = self.new.sent } }
    {
        self.core.sent.take_first()
    }

    /// The first datagram that is given. None exactly where none waits.
    pub fn take_given(&mut self) -> Option<Datagram>
        ensures first { MatchOption result (self.old.given ≡ []) (λ first. self.old.given ≡ first ∷ self.new.given) }
        ensures none { IfNone result (self.new ≡ self.old) }
        ensures rest { self.new ≡ record self.old { given = self.new.given } }
    {
        self.core.given.take_first()
    }

    /// How the last step closed the bundle, if it did.
    pub fn ended_by(&self) -> Option<BundleEnd>
        ensures { result ≡ self.now.ended }
    {
        self.core.ended
    }

    /// What happened on the unit.
    #[tactic(auto, using(crate::proofs::ReplayFacts::replay_of))]
    pub fn log(&self) -> &Log
        ensures value { result.now ≡ self.now.scripts.log }
        ensures law { LogLaw 0 self.now.scripts.log.past }
        ensures settled { LogSettled self.now.scripts.log.past (is_open self.now.live) }
        ensures replay { Replay self.now self.now.scripts.log.past }
        ensures marks { AllMayStand self.now.scripts.log.past }
        ensures history { HasItsHistory self.now }
        ensures room { IfSome self.now.live (λ l. l.made_at + 1024 ≤ self.now.scripts.log.limit) }
    {
        self.core.scripts.log()
    }

    /// Whether IPCP is in Opened.
    pub fn opened(&self) -> bool
        ensures { result ≡ is_open self.now.live }
    {
        self.core.is_open()
    }

    /// How often IP was opened.
    pub fn openings(&self) -> u32
        ensures value { result ≡ openings_in 0 self.now.scripts.log.past }
        ensures said { result ≡ greatest_in (said_in self.now.scripts.log.past) }
    {
        self.core.scripts.openings()
    }

    /// How many bundles were made. The next has the next number.
    pub fn bundles(&self) -> u32
        ensures value { result ≡ bundles_in 0 self.now.scripts.log.past }
    {
        self.core.bundles
    }

    /// The members in link order.
    pub fn members(&self) -> &[Member]
        ensures value { result.now ≡ members_of self.now.live }
        ensures few { length result.now ≤ 16 }
    {
        match &self.core.live {
            Some(live) => live.members.as_slice(),
            None => &[],
        }
    }

    /// Whether a bundle lives.
    pub fn has_bundle(&self) -> bool
        ensures { result ≡ is_some self.now.live }
    {
        self.core.live.is_some()
    }

    /// Of a multilink bundle that lives what each end takes. None where there is none.
    pub fn mrru(&self) -> Option<Mrru>
        ensures { result ≡ mrru_of self.now.live }
    {
        match &self.core.live {
            Some(live) => live.mrru,
            None => None,
        }
    }

    /// The number of the job that runs.
    pub fn running(&self) -> Option<u32>
        ensures { result ≡ running_in (said_in self.now.scripts.log.past) }
    {
        self.core.scripts.running()
    }

    /// What was dropped.
    pub fn counts(&self) -> UnitCounts
        ensures { result ≡ self.now.counts }
    {
        self.core.counts
    }
}
