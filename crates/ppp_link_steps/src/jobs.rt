//! Site scripts: a job is given and comes back.

ghost use Rattle.std.specs.Prelude.{◌≡◌, ◌≤◌, ◌↔◌, IsOk, IfErr, IfNone, IfSome, OnErr, OnOk, OnSome, Some, is_some};
ghost use Rattle.ppp_base.specs.declared.hook_target.HookTarget.TheVariants.{Link};
ghost use Rattle.ppp_hooks.specs.HookPast.{not_started_in, starts_in};
ghost use Rattle.ppp_hooks.specs.HookWords.{words_of_start};
ghost use Rattle.ppp_mark.specs.Log.{room_of};
ghost use Rattle.ppp_mark.specs.ScriptLog.{Grows, IsRunningJob};
ghost use Rattle.ppp_mark.specs.Scripts.{said_in};
ghost use Rattle.ppp_link_parts.specs.Records.{told};
ghost use Rattle.ppp_link_rules.specs.Errands.{gives_job, with_job_out};
ghost use Rattle.ppp_link_rules.specs.LinkPart.{job_ended};
ghost use Rattle.ppp_link_rules.specs.LinkState.{LinkState};
ghost use Rattle.ppp_link_core.specs.Standing.{Does, Lives, Sits, StandsFor, opened};
ghost use Rattle.ppp_link_steps.specs.Calm.{Calm};

use ppp_hooks::{HookDone, HookJob};
use ppp_link_core::link_core::LinkCore;
use ppp_outside::Spawner;

/// The script that was started, if its job hasn't been taken. The spawner goes with it.
#[tactic(auto, using(crate::proofs::JobFacts::gives_is, crate::proofs::JobFacts::taken_does, crate::proofs::JobFacts::taken_lives, crate::proofs::JobFacts::taken_calm, crate::proofs::JobFacts::taken_sits))]
pub fn take_job<S: Spawner>(core: &mut LinkCore<S>) -> Option<HookJob<S>>
    requires lives { Lives core.old }
    requires sits { Sits (opened core.old.lcp) core.old }
    requires calm { Calm core.old }
    ensures some { (s : LinkState) → StandsFor core.old s → gives_job s ≡ is_some result }
    ensures job { IfSome result (λ job. (job.target ≡ Link core.old.records.id) × (job.number ≡ (told core.old.records).starts)) }
    ensures said { IfSome result (λ job. (job.number ≡ starts_in (said_in core.old.records.scripts.log.past)) × (job.not_started ≡ not_started_in (said_in core.old.records.scripts.log.past))) }
    ensures words { IfSome result (λ job. words_of_start (Link core.old.records.id) core.old.records.scripts.machine.facts.last ≡ Some job.words) }
    ensures spawner { IfSome result (λ job. core.old.records.scripts.machine.spawner ≡ Some job.spawner) }
    ensures does { OnSome result (Does with_job_out core.old core.new) }
    ensures none { IfNone result (core.new ≡ core.old) }
    ensures log { core.new.records.scripts.log ≡ core.old.records.scripts.log }
    ensures sits { Sits (opened core.new.lcp) core.new }
    ensures calm { Calm core.new }
    ensures lives { Lives core.new }
{
    core.records.take_job()
}

/// A script has ended. An `Err` gives back what isn't the job that was taken and runs, and changes nothing.
#[tactic(auto, using(crate::proofs::JobFacts::ended_does, crate::proofs::JobFacts::ended_lives, crate::proofs::JobFacts::ended_calm, crate::proofs::JobFacts::ended_sits))]
pub fn end_job<S: Spawner>(core: &mut LinkCore<S>, done: HookDone<S>) -> Result<(), HookDone<S>>
    requires lives { Lives core.old }
    requires room { 2 ≤ room_of core.old.records.scripts.log }
    requires sits { Sits (opened core.old.lcp) core.old }
    requires calm { Calm core.old }
    ensures target { core.old.records.scripts.machine.target ≡ Link core.old.records.id }
    ensures ok { IsOk result ↔ IsRunningJob done core.old.records.scripts }
    ensures does { OnOk result (Does (job_ended done.answer) core.old core.new) }
    ensures unchanged { OnErr result (core.new ≡ core.old) }
    ensures back { IfErr result (λ back. back ≡ done) }
    ensures sits { Sits (opened core.new.lcp) core.new }
    ensures calm { Calm core.new }
    ensures grows { Grows 2 core.old.records.scripts.log core.new.records.scripts.log }
    ensures lives { Lives core.new }
{
    let time = core.time;
    core.records.end_job(done, time)
}
