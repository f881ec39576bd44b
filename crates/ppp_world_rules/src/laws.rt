//! What holds over every list of steps.

ghost use Rattle.std.specs.Prelude.{ℕ, ◌≤◌, List, length};
ghost use Rattle.ppp_world_rules.specs.Headline.{Headline};
ghost use Rattle.ppp_option_words.specs.ConfigValues.{ConfigValues};
ghost use Rattle.ppp_secrets.specs.declared.secrets.SecretsPair.{SecretsPair};
ghost use Rattle.ppp_trace.specs.declared.world_step.WorldStep.{WorldStep};
ghost use Rattle.ppp_trace.specs.declared.trace.Trace.{Trace};
ghost use Rattle.ppp_world_rules.specs.Router.{Router};
ghost use Rattle.ppp_world_rules.specs.Run.{IsNewRouter, Run};
ghost use Rattle.ppp_world_rules.specs.TraceRun.{TraceRun};
ghost use Rattle.ppp_world_rules.specs.WorldPart.{Output};

/// Wherever a run has come to, from whatever options, secrets and seed and by whatever steps, the headline holds.
pub fn every_run()
    ensures { (config : ConfigValues) (secrets : SecretsPair) (seed : ℕ) (start end : Router) (steps : List WorldStep) (outputs : List Output)
        → 4096 ≤ config.loglimit → IsNewRouter config secrets seed start → Run steps start outputs end → Headline end }
{}

/// So it does of what a full trace spells, run from its options, secrets and seed.
pub fn every_trace()
    ensures { (trace : Trace) → 4096 ≤ trace.config.loglimit → (t : TraceRun trace) → Headline t.lines.last }
{}
