//! What holds of traces and their faults, whatever the octets.
ghost use Rattle.std.specs.Prelude.{◌≡◌, ◌+◌, ◌*◌, ◌≤◌, List, ℕ, length};
ghost use Rattle.ppp_trace.specs.declared.fault.BadTrace.{BadTrace};
ghost use Rattle.ppp_trace.specs.declared.step.BareStep.{BareStep};
ghost use Rattle.ppp_trace.specs.BareTrace.{IsBareTrace, IsNoTrace};
ghost use Rattle.ppp_trace.specs.FirstFault.{FirstFault};

/// A trace has one list of steps alone.
pub fn trace_has_one_meaning()
    ensures { (octets : List ℕ) (xs ys : List BareStep) → IsBareTrace octets xs → IsBareTrace octets ys → xs ≡ ys }
{}

/// Octets have one first fault alone.
pub fn first_fault_is_one()
    ensures { (octets : List ℕ) (a b : BadTrace) → FirstFault octets a → FirstFault octets b → a ≡ b }
{}

/// Octets that have a first fault are no trace.
pub fn fault_is_of_no_trace()
    ensures { (octets : List ℕ) (bad : BadTrace) → FirstFault octets bad → IsNoTrace octets }
{}

/// What is no trace has a first fault.
pub fn no_trace_has_a_fault()
    ensures { (octets : List ℕ) → IsNoTrace octets → (bad : BadTrace) × FirstFault octets bad }
{}

/// A trace is short: its limit of steps is one of octets too.
pub fn trace_is_short()
    ensures { (octets : List ℕ) (steps : List BareStep) → IsBareTrace octets steps → length octets ≤ 5 + 31 * length steps }
{}
