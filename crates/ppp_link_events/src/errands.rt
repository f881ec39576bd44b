//! Errands are given, and posts to the table are taken.

ghost use Rattle.std.specs.Prelude.{◌≡◌, ◌++◌, [], IfNone, IfSome, OnSome, Some, is_some, option_map, option_to_list, true};
ghost use Rattle.ppp_base.specs.declared.hook_target.HookTarget.TheVariants.{Link};
ghost use Rattle.ppp_base.specs.declared.posts.UpPost.{UpPost};
ghost use Rattle.ppp_hooks.specs.HookPast.{not_started_in, starts_in};
ghost use Rattle.ppp_hooks.specs.HookWords.{words_of_start};
ghost use Rattle.ppp_mark.specs.Scripts.{said_in};
ghost use Rattle.ppp_link_parts.specs.Records.{told};
ghost use Rattle.ppp_link_parts.specs.UpRing.{value_of};
ghost use Rattle.ppp_link_rules.specs.Errands.{first_of, gives_job, gives_reading, gives_writing, octets_given, with_dial_out, with_job_out, with_post_taken, with_reading_out, with_writing_out};
ghost use Rattle.ppp_link_rules.specs.LinkState.{LinkState};
ghost use Rattle.ppp_link_rules.specs.declared.errand.Errand.TheVariants as errand;
ghost use Rattle.ppp_link_core.specs.Standing.{StandsFor};
ghost use Rattle.ppp_link_events.specs.Going.{Gives, Goes};

use ppp_base::{Octets, UpPost};
use ppp_hooks::HookJob;
use ppp_link_core::link_core::LinkCore;
use ppp_link_rules::errand::Errand;
use ppp_link_steps::jobs::take_job;
use ppp_outside::Spawner;

/// The dial that waits is given.
#[tactic(auto, using(crate::proofs::ErrandFacts::dial_gives, crate::proofs::ErrandFacts::dial_goes))]
pub fn give_dial<S: Spawner>(core: &mut LinkCore<S>)
    requires goes { Goes core.old }
    requires waits { core.old.dial ≡ errand.Waiting }
    ensures gives { Gives with_dial_out core.old core.new }
    ensures out { core.new.dial ≡ errand.Out }
    ensures goes { Goes core.new }
{
    core.dial = Errand::Out;
}

/// The reading is given.
#[tactic(auto, using(crate::proofs::ErrandFacts::reading_gives, crate::proofs::ErrandFacts::reading_goes))]
pub fn give_reading<S: Spawner>(core: &mut LinkCore<S>)
    requires goes { Goes core.old }
    requires gives { (s : LinkState) → StandsFor core.old s → gives_reading s ≡ true }
    ensures gives { Gives with_reading_out core.old core.new }
    ensures out { core.new.reading ≡ errand.Out }
    ensures goes { Goes core.new }
{
    core.reading = Errand::Out;
}

/// A writing is given, with the first octets that wait.
#[tactic(auto, using(crate::proofs::ErrandFacts::writing_octets, crate::proofs::ErrandFacts::writing_gives, crate::proofs::ErrandFacts::writing_goes))]
pub fn give_writing<S: Spawner>(core: &mut LinkCore<S>) -> Octets<1024>
    requires goes { Goes core.old }
    requires gives { (s : LinkState) → StandsFor core.old s → gives_writing s ≡ true }
    ensures octets { (s : LinkState) → StandsFor core.old s → octets_given s ≡ result }
    ensures gives { Gives with_writing_out core.old core.new }
    ensures out { core.new.writing ≡ errand.Out }
    ensures goes { Goes core.new }
{
    core.writing = Errand::Out;
    core.out.take()
}

/// The script that was started is given, if its job isn't out. The spawner goes with it.
#[tactic(auto, using(crate::proofs::ErrandFacts::job_gives, crate::proofs::ErrandFacts::job_goes))]
pub fn give_job<S: Spawner>(core: &mut LinkCore<S>) -> Option<HookJob<S>>
    requires goes { Goes core.old }
    ensures some { (s : LinkState) → StandsFor core.old s → gives_job s ≡ is_some result }
    ensures job { IfSome result (λ job. (job.target ≡ Link core.old.records.id) × (job.number ≡ (told core.old.records).starts)) }
    ensures said { IfSome result (λ job. (job.number ≡ starts_in (said_in core.old.records.scripts.log.past)) × (job.not_started ≡ not_started_in (said_in core.old.records.scripts.log.past))) }
    ensures words { IfSome result (λ job. words_of_start (Link core.old.records.id) core.old.records.scripts.machine.facts.last ≡ Some job.words) }
    ensures spawner { IfSome result (λ job. core.old.records.scripts.machine.spawner ≡ Some job.spawner) }
    ensures gives { OnSome result (Gives with_job_out core.old core.new) }
    ensures none { IfNone result (core.new ≡ core.old) }
    ensures goes { Goes core.new }
{
    take_job(core)
}

/// The post to the table that waits longest is taken.
#[tactic(auto, using(crate::proofs::ErrandFacts::post_first, crate::proofs::ErrandFacts::post_gives_some, crate::proofs::ErrandFacts::post_none, crate::proofs::ErrandFacts::post_goes))]
pub fn give_post<S: Spawner>(core: &mut LinkCore<S>) -> Option<UpPost>
    requires goes { Goes core.old }
    ensures first { (s : LinkState) → StandsFor core.old s → first_of s.up.waiting ≡ option_map (λ (post : UpPost). value_of post) result }
    ensures waiting { core.old.up.waiting ≡ option_to_list result ++ core.new.up.waiting }
    ensures empty { IfNone result (core.old.up.waiting ≡ []) }
    ensures same { core.new.id ≡ core.old.id }
    ensures gives { OnSome result (Gives with_post_taken core.old core.new) }
    ensures none { IfNone result (core.new ≡ core.old) }
    ensures goes { Goes core.new }
{
    core.up.take()
}
