// Errands are given, each with its object.
ghost use Rattle.std.specs.Prelude.{◌≡◌, ◌++◌, ℕ, [], IfNone, IfSome, None, OnSome, Some, is_some, option_to_list, true};
ghost use Rattle.ppp_base.specs.declared.hook_target.HookTarget.TheVariants.{Link as OfLink};
ghost use Rattle.ppp_hooks.specs.HookWords.{words_of_start};
ghost use Rattle.ppp_link_parts.specs.Records.{told};
ghost use Rattle.ppp_link_rules.specs.Errands.{gives_dial, gives_job, gives_reading, gives_writing, with_dial_out, with_job_out, with_post_taken, with_reading_out, with_writing_out};
ghost use Rattle.ppp_link_rules.specs.LinkState.{LinkState};
ghost use Rattle.ppp_link_rules.specs.declared.errand.Errand.TheVariants as errand;
ghost use Rattle.ppp_link_core.specs.Standing.{StandsFor};
ghost use Rattle.ppp_link_events.specs.Going.{Goes};
ghost use Rattle.ppp_outside.specs.Dialer.{DialerState};
ghost use Rattle.ppp_outside.specs.Line.{LineState};
ghost use Rattle.ppp_link.specs.Given.{IsDialOf, IsJobOf, IsReadingOf, IsWritingOf};
ghost use Rattle.ppp_link.specs.Link.{IsLink, IsWhole};
ghost use Rattle.ppp_link.specs.Steps.{Gives};

use crate::body::LinkBody;
use crate::dial_job::DialJob;
use crate::link::Link;
use crate::reading::Reading;
use crate::writing::Writing;
use ppp_base::UpPost;
use ppp_hooks::HookJob;
use ppp_link_events::{errands, looking};
use ppp_outside::{Dialer, Spawner};

// The dial that waits, with the dialer.
fn make_dial<D: Dialer, S: Spawner>(body: &mut LinkBody<D, D::In, D::Out, S>) -> DialJob<D>
    requires whole { IsWhole D.state D.In.state body.old }
    requires waits { body.old.core.dial ≡ errand.Waiting }
    ensures carries { (s : LinkState) → IsLink body.old s → IsDialOf body.old s result }
    ensures gives { Gives with_dial_out body.old body.new }
    ensures rest { body.new ≡ record body.old { core = body.new.core; dialer = None } }
    ensures whole { IsWhole D.state D.In.state body.new }
{
    let dialer = body.dialer.take().unwrap();
    let job = DialJob {
        link: body.core.id,
        session: body.core.records.session(),
        failed: body.core.failed_dials,
        line: body.core.config.line.copy(),
        dialer,
    };
    errands::give_dial(&mut body.core);
    job
}

// The dial that waits.
fn give_dial<D: Dialer, S: Spawner>(body: &mut LinkBody<D, D::In, D::Out, S>) -> Option<DialJob<D>>
    requires whole { IsWhole D.state D.In.state body.old }
    ensures some { (s : LinkState) → IsLink body.old s → gives_dial s ≡ is_some result }
    ensures carries { (s : LinkState) → IsLink body.old s → IfSome result (IsDialOf body.old s) }
    ensures gives { OnSome result (Gives with_dial_out body.old body.new) }
    ensures rest { OnSome result (body.new ≡ record body.old { core = body.new.core; dialer = None }) }
    ensures none { IfNone result (body.new ≡ body.old) }
    ensures whole { IsWhole D.state D.In.state body.new }
{
    let gives = looking::gives_dial(&body.core);
    if !gives {
        return None;
    }
    Some(make_dial(body))
}

// The reading that is wanted, with the half of the line.
fn make_reading<D: Dialer, S: Spawner>(body: &mut LinkBody<D, D::In, D::Out, S>) -> Reading<D::In>
    requires whole { IsWhole D.state D.In.state body.old }
    requires gives { (s : LinkState) → StandsFor body.old.core s → gives_reading s ≡ true }
    ensures carries { (s : LinkState) → IsLink body.old s → IsReadingOf body.old s result }
    ensures gives { Gives with_reading_out body.old body.new }
    ensures rest { body.new ≡ record body.old { core = body.new.core; input = None } }
    ensures whole { IsWhole D.state D.In.state body.new }
{
    let input = body.input.take().unwrap();
    let reading = Reading {
        link: body.core.id,
        session: body.core.records.session(),
        taken: body.given,
        input,
    };
    errands::give_reading(&mut body.core);
    reading
}

// The reading, where it is in and the line is wanted.
fn give_reading<D: Dialer, S: Spawner>(
    body: &mut LinkBody<D, D::In, D::Out, S>,
) -> Option<Reading<D::In>>
    requires whole { IsWhole D.state D.In.state body.old }
    ensures some { (s : LinkState) → IsLink body.old s → gives_reading s ≡ is_some result }
    ensures carries { (s : LinkState) → IsLink body.old s → IfSome result (IsReadingOf body.old s) }
    ensures gives { OnSome result (Gives with_reading_out body.old body.new) }
    ensures rest { OnSome result (body.new ≡ record body.old { core = body.new.core; input = None }) }
    ensures none { IfNone result (body.new ≡ body.old) }
    ensures whole { IsWhole D.state D.In.state body.new }
{
    let gives = looking::gives_reading(&body.core);
    if !gives {
        return None;
    }
    Some(make_reading(body))
}

// The octets that wait first, with the half of the line.
fn make_writing<D: Dialer, S: Spawner>(body: &mut LinkBody<D, D::In, D::Out, S>) -> Writing<D::Out>
    requires whole { IsWhole D.state D.In.state body.old }
    requires gives { (s : LinkState) → StandsFor body.old.core s → gives_writing s ≡ true }
    ensures carries { (s : LinkState) → IsLink body.old s → IsWritingOf body.old s result }
    ensures gives { Gives with_writing_out body.old body.new }
    ensures rest { body.new ≡ record body.old { core = body.new.core; output = None } }
    ensures whole { IsWhole D.state D.In.state body.new }
{
    let output = body.output.take().unwrap();
    let link = body.core.id;
    let session = body.core.records.session();
    let octets = errands::give_writing(&mut body.core);
    Writing {
        link,
        session,
        octets,
        output,
    }
}

// A writing, where it is in and octets wait.
fn give_writing<D: Dialer, S: Spawner>(
    body: &mut LinkBody<D, D::In, D::Out, S>,
) -> Option<Writing<D::Out>>
    requires whole { IsWhole D.state D.In.state body.old }
    ensures some { (s : LinkState) → IsLink body.old s → gives_writing s ≡ is_some result }
    ensures carries { (s : LinkState) → IsLink body.old s → IfSome result (IsWritingOf body.old s) }
    ensures gives { OnSome result (Gives with_writing_out body.old body.new) }
    ensures rest { OnSome result (body.new ≡ record body.old { core = body.new.core; output = None }) }
    ensures none { IfNone result (body.new ≡ body.old) }
    ensures whole { IsWhole D.state D.In.state body.new }
{
    let gives = looking::gives_writing(&body.core);
    if !gives {
        return None;
    }
    Some(make_writing(body))
}

// The script that was started.
fn give_job<D: Dialer, S: Spawner>(body: &mut LinkBody<D, D::In, D::Out, S>) -> Option<HookJob<S>>
    requires whole { IsWhole D.state D.In.state body.old }
    ensures some { (s : LinkState) → IsLink body.old s → gives_job s ≡ is_some result }
    ensures job { IfSome result (λ job. (job.target ≡ OfLink body.old.core.records.id) × (job.number ≡ (told body.old.core.records).starts)) }
    ensures is { (s : LinkState) → IsLink body.old s → IfSome result (IsJobOf s) }
    ensures words { IfSome result (λ job. words_of_start (OfLink body.old.core.records.id) body.old.core.records.scripts.machine.facts.last ≡ Some job.words) }
    ensures spawner { IfSome result (λ job. body.old.core.records.scripts.machine.spawner ≡ Some job.spawner) }
    ensures gives { OnSome result (Gives with_job_out body.old body.new) }
    ensures rest { body.new ≡ record body.old { core = body.new.core } }
    ensures none { IfNone result (body.new ≡ body.old) }
    ensures whole { IsWhole D.state D.In.state body.new }
{
    errands::give_job(&mut body.core)
}

// The post to the table that waits longest, whatever the dialer and the line tell.
pub(crate) fn give_post<D: Drop, I: Drop, O: Drop, S: Spawner>(
    body: &mut LinkBody<D, I, O, S>,
) -> Option<UpPost>
    requires goes { Goes body.old.core }
    ensures first { body.old.core.up.waiting ≡ option_to_list result ++ body.new.core.up.waiting }
    ensures empty { IfNone result (body.old.core.up.waiting ≡ []) }
    ensures gives { OnSome result (Gives with_post_taken body.old body.new) }
    ensures rest { body.new ≡ record body.old { core = body.new.core } }
    ensures none { IfNone result (body.new ≡ body.old) }
    ensures same { body.new.core.id ≡ body.old.core.id }
    ensures whole { (dialer_of : D → DialerState) (line_of : I → LineState) → IsWhole dialer_of line_of body.old → IsWhole dialer_of line_of body.new }
{
    errands::give_post(&mut body.core)
}

impl<D: Dialer, S: Spawner> Link<D, S> {
    /// Takes the dial, where an attempt waits for it.
    pub fn take_dial(&mut self) -> Option<DialJob<D>>
        ensures some { (s : LinkState) → IsLink self.old s → gives_dial s ≡ is_some result }
        ensures carries { (s : LinkState) → IsLink self.old s → IfSome result (IsDialOf self.old s) }
        ensures gives { OnSome result (Gives with_dial_out self.old self.new) }
        ensures rest { OnSome result (self.new ≡ record self.old { core = self.new.core; dialer = None }) }
        ensures none { IfNone result (self.new ≡ self.old) }
    {
        give_dial(&mut self.body)
    }

    /// Takes the reading, where it is in and the line is wanted.
    pub fn take_reading(&mut self) -> Option<Reading<D::In>>
        ensures some { (s : LinkState) → IsLink self.old s → gives_reading s ≡ is_some result }
        ensures carries { (s : LinkState) → IsLink self.old s → IfSome result (IsReadingOf self.old s) }
        ensures gives { OnSome result (Gives with_reading_out self.old self.new) }
        ensures rest { OnSome result (self.new ≡ record self.old { core = self.new.core; input = None }) }
        ensures none { IfNone result (self.new ≡ self.old) }
    {
        give_reading(&mut self.body)
    }

    /// Takes a writing, where it is in and octets wait: the first 1,024 of them, or all.
    pub fn take_writing(&mut self) -> Option<Writing<D::Out>>
        ensures some { (s : LinkState) → IsLink self.old s → gives_writing s ≡ is_some result }
        ensures carries { (s : LinkState) → IsLink self.old s → IfSome result (IsWritingOf self.old s) }
        ensures gives { OnSome result (Gives with_writing_out self.old self.new) }
        ensures rest { OnSome result (self.new ≡ record self.old { core = self.new.core; output = None }) }
        ensures none { IfNone result (self.new ≡ self.old) }
    {
        give_writing(&mut self.body)
    }

    /// Takes the script that was started, with its spawner, where it isn't out.
    pub fn take_job(&mut self) -> Option<HookJob<S>>
        ensures some { (s : LinkState) → IsLink self.old s → gives_job s ≡ is_some result }
        ensures job { IfSome result (λ job. (job.target ≡ OfLink self.old.core.records.id) × (job.number ≡ (told self.old.core.records).starts)) }
        ensures is { (s : LinkState) → IsLink self.old s → IfSome result (IsJobOf s) }
        ensures words { IfSome result (λ job. words_of_start (OfLink self.old.core.records.id) self.old.core.records.scripts.machine.facts.last ≡ Some job.words) }
        ensures spawner { IfSome result (λ job. self.old.core.records.scripts.machine.spawner ≡ Some job.spawner) }
        ensures gives { OnSome result (Gives with_job_out self.old self.new) }
        ensures rest { self.new ≡ record self.old { core = self.new.core } }
        ensures none { IfNone result (self.new ≡ self.old) }
    {
        give_job(&mut self.body)
    }

    /// Takes the post to the table that waits longest.
    pub fn take_up(&mut self) -> Option<UpPost>
        ensures first { self.old.core.up.waiting ≡ option_to_list result ++ self.new.core.up.waiting }
        ensures empty { IfNone result (self.old.core.up.waiting ≡ []) }
        ensures gives { OnSome result (Gives with_post_taken self.old self.new) }
        ensures rest { self.new ≡ record self.old { core = self.new.core } }
        ensures none { IfNone result (self.new ≡ self.old) }
    {
        give_post(&mut self.body)
    }
}
