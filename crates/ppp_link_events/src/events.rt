//! Each event, whole: what it does, and the end of its step. Octets are in `octets`.

ghost use Rattle.std.specs.Prelude.{◌≡◌, ◌↔◌, ℕ, IfErr, IsOk, OnErr, OnOk, true};
ghost use Rattle.ppp_mark.specs.ScriptLog.{IsRunningJob};
ghost use Rattle.ppp_link_rules.specs.LinkEvent.{Begin, Dialled, Flushed, FromTable, HookOver, LineOver, Signal, Tick};
ghost use Rattle.ppp_link_rules.specs.LinkPart.{is_present, may_come_back};
ghost use Rattle.ppp_link_rules.specs.LinkState.{LinkState, control};
ghost use Rattle.ppp_link_rules.specs.Marks.{is_new};
ghost use Rattle.ppp_link_rules.specs.declared.errand.Errand.TheVariants as errand;
ghost use Rattle.ppp_link_core.specs.Standing.{StandsFor};
ghost use Rattle.ppp_link_events.specs.Going.{Goes, IsGoing, Takes};

use crate::looking::is_new;
use ppp_base::{Post, SignalWord};
use ppp_hooks::HookDone;
use ppp_link_core::link_core::LinkCore;
use ppp_link_rules::errand::{ReadEnd, SentEnd};
use ppp_link_steps::coming::take_dial_back;
use ppp_link_steps::errands::{take_reading_back, take_writing_back};
use ppp_link_steps::sessions::end_step;
use ppp_link_steps::signals::take_signal;
use ppp_link_steps::{dialling, jobs, posts, ticking};
use ppp_outside::Spawner;

// The link begins, if it is new.
#[tactic(auto, using(crate::proofs::GoingFacts::goes_lives, crate::proofs::GoingFacts::goes_room, crate::proofs::EventFacts::begin_takes, crate::proofs::EventFacts::idle_takes, crate::proofs::EventFacts::begin_goes))]
fn begin_if<S: Spawner>(core: &mut LinkCore<S>, new: bool)
    requires goes { Goes core.old }
    requires new { (s : LinkState) → StandsFor core.old s → is_new (control s).doing ≡ new }
    ensures takes { Takes Begin core.old core.new }
    ensures goes { Goes core.new }
{
    if new {
        dialling::begin(core);
        end_step(core);
    }
}

/// The link begins. A second time does nothing.
pub fn begin<S: Spawner>(core: &mut LinkCore<S>)
    requires goes { Goes core.old }
    ensures takes { Takes Begin core.old core.new }
    ensures goes { Goes core.new }
{
    let new = is_new(core);
    begin_if(core, new);
}

/// The dial that was out comes back, with a line or without one.
#[tactic(auto, using(crate::proofs::GoingFacts::goes_lives, crate::proofs::GoingFacts::goes_room, crate::proofs::EventFacts::dial_takes, crate::proofs::EventFacts::dial_goes))]
pub fn take_dial<S: Spawner>(core: &mut LinkCore<S>, came: bool)
    requires goes { Goes core.old }
    requires out { core.old.dial ≡ errand.Out }
    ensures takes { (link session failed : ℕ) → Takes (Dialled link session failed came) core.old core.new }
    ensures goes { Goes core.new }
{
    take_dial_back(core, came);
    end_step(core);
}

/// The reading that was out comes back.
#[tactic(auto, using(crate::proofs::GoingFacts::goes_lives, crate::proofs::GoingFacts::goes_room, crate::proofs::EventFacts::reading_takes, crate::proofs::EventFacts::reading_goes))]
pub fn take_reading_over<S: Spawner>(core: &mut LinkCore<S>, how: ReadEnd)
    requires goes { Goes core.old }
    requires out { core.old.reading ≡ errand.Out }
    requires back { (s : LinkState) → StandsFor core.old s → may_come_back how s ≡ true }
    ensures takes { (link session : ℕ) → Takes (LineOver link session how) core.old core.new }
    ensures goes { Goes core.new }
{
    take_reading_back(core, how);
    end_step(core);
}

/// The writing that was out comes back.
#[tactic(auto, using(crate::proofs::GoingFacts::goes_lives, crate::proofs::GoingFacts::goes_room, crate::proofs::EventFacts::sent_takes, crate::proofs::EventFacts::sent_goes))]
pub fn take_sent<S: Spawner>(core: &mut LinkCore<S>, how: SentEnd)
    requires goes { Goes core.old }
    requires out { core.old.writing ≡ errand.Out }
    ensures takes { (link session : ℕ) → Takes (Flushed link session how) core.old core.new }
    ensures goes { Goes core.new }
{
    take_writing_back(core, how);
    end_step(core);
}

/// The time.
#[tactic(auto, using(crate::proofs::GoingFacts::goes_lives, crate::proofs::GoingFacts::goes_room, crate::proofs::EventFacts::tick_takes, crate::proofs::EventFacts::tick_goes))]
pub fn tick<S: Spawner>(core: &mut LinkCore<S>, now: u64)
    requires goes { Goes core.old }
    ensures takes { Takes (Tick now) core.old core.new }
    ensures goes { Goes core.new }
{
    ticking::tick(core, now);
    end_step(core);
}

/// A signal.
#[tactic(auto, using(crate::proofs::GoingFacts::goes_lives, crate::proofs::GoingFacts::goes_room, crate::proofs::EventFacts::signal_takes, crate::proofs::EventFacts::signal_goes))]
pub fn signal<S: Spawner>(core: &mut LinkCore<S>, word: SignalWord)
    requires goes { Goes core.old }
    ensures takes { Takes (Signal word) core.old core.new }
    ensures goes { Goes core.new }
{
    take_signal(core, word);
    end_step(core);
}

/// A post of the table, which names the present stay if it names one.
#[tactic(auto, using(crate::proofs::GoingFacts::goes_lives, crate::proofs::GoingFacts::goes_room, crate::proofs::EventFacts::post_takes, crate::proofs::EventFacts::post_goes))]
pub fn take_post<S: Spawner>(core: &mut LinkCore<S>, post: Post)
    requires goes { Goes core.old }
    requires present { (s : LinkState) → StandsFor core.old s → is_present (FromTable post) s ≡ true }
    ensures takes { Takes (FromTable post) core.old core.new }
    ensures goes { Goes core.new }
{
    posts::take_post(core, post);
    end_step(core);
}

/// A script has ended. An `Err` gives back what isn't the job that was taken and runs, and changes nothing.
#[tactic(auto, using(crate::proofs::GoingFacts::goes_lives, crate::proofs::GoingFacts::goes_room))]
pub fn end_job<S: Spawner>(core: &mut LinkCore<S>, done: HookDone<S>) -> Result<(), HookDone<S>>
    requires goes { Goes core.old }
    ensures ok { IsOk result ↔ IsRunningJob done core.old.records.scripts }
    ensures present { (s : LinkState) → IsGoing core.old s → (IsOk result ↔ (is_present (HookOver done.target done.number done.not_started done.answer) s ≡ true)) }
    ensures takes { OnOk result (Takes (HookOver done.target done.number done.not_started done.answer) core.old core.new) }
    ensures unchanged { OnErr result (core.new ≡ core.old) }
    ensures back { IfErr result (λ back. back ≡ done) }
    ensures goes { Goes core.new }
{
    jobs::end_job(core, done)?;
    end_step(core);
    Ok(())
}
