//! What follows from the definitions, for a reader and for the layer above.

ghost use Rattle.std.specs.Prelude.{◌≡◌, ◌≢◌, ◌⊎◌, ◌↔◌, ℕ, ◌+◌, ◌≤◌, Bool, true, [], ◌∷◌, List, Option, Some, None, option_to_list};
ghost use Rattle.ppp_base.specs.declared.allow.Allow.{Allow};
ghost use Rattle.ppp_packet.specs.declared.agreed.Method.{Method};
ghost use Rattle.ppp_auth.specs.Ends.{BothDone, GoesOn, PeerFirst, SomeEnd, SomePass, TooLate, WeFirst};
ghost use Rattle.ppp_auth.specs.Outcome.{outcome_in, peer_passed};
ghost use Rattle.ppp_auth.specs.Phase.{names_told, name_of, nothing, told_at};
ghost use Rattle.ppp_auth.specs.Setting.{Setting, PhaseAt, waits, begun_at, is_lost};
ghost use Rattle.ppp_auth.specs.declared.outcome.AuthNow.TheVariants.{Going, Passed, PeerFailed, WeFailed};

/// Before the phase begins nothing is told, and it goes on.
pub fn nothing_before_the_beginning()
    ensures told { (s : Setting) (c : PhaseAt) (past : List PhaseAt) → begun_at (c ∷ past) ≡ None → told_at s c past ≡ nothing }
    ensures outcome { (s : Setting) (past : List PhaseAt) → begun_at past ≡ None → outcome_in s past ≡ Going }
{}

/// How the phase stands, by how its sides stand: it has passed exactly where both are done, and it has failed by the side that was lost first, the
/// peer's where both were lost at one call.
pub fn the_sides_decide()
    ensures passed { (s : Setting) (past : List PhaseAt) (peer : Option (List ℕ)) (allowed : Allow) → (outcome_in s past ≡ Passed peer allowed) ↔ BothDone s past peer allowed }
    ensures peer_failed { (s : Setting) (past : List PhaseAt) → (outcome_in s past ≡ PeerFailed) ↔ PeerFirst s past }
    ensures we_failed { (s : Setting) (past : List PhaseAt) → (outcome_in s past ≡ WeFailed) ↔ WeFirst s past }
    ensures going { (s : Setting) (past : List PhaseAt) → (outcome_in s past ≡ Going) ↔ ((begun_at past ≡ None) ⊎ GoesOn s past) }
{}

/// A side is lost by the 60 seconds exactly where it waited until a time that came too late.
pub fn waiting_too_long_loses()
    ensures { (is_waiting : List PhaseAt → Bool) (past : List PhaseAt) → (is_lost is_waiting past ≡ true) ↔ TooLate is_waiting past }
{}

/// However the two prove themselves, some phase passes; where the peer does, some phase fails by it, and where we do, some by us.
pub fn each_pair_of_methods_ends_in_each_way()
    ensures passes { (peer we : Option Method) → SomePass peer we }
    ensures peer_fails { (peer : Method) (we : Option Method) → SomeEnd (Some peer) we PeerFailed }
    ensures we_fail { (peer : Option Method) (we : Method) → SomeEnd peer (Some we) WeFailed }
{}

/// The peer is told as passed once, under the name by which it passed, and not before.
pub fn the_peer_passes_once()
    ensures once { (s : Setting) (past : List PhaseAt) → names_told s past ≡ option_to_list (name_of (peer_passed s.peer_proves s past)) }
    ensures failed { (s : Setting) (past : List PhaseAt) → outcome_in s past ≡ PeerFailed → names_told s past ≡ [] }
    ensures passed { (s : Setting) (past : List PhaseAt) (peer : Option (List ℕ)) (allowed : Allow) → outcome_in s past ≡ Passed peer allowed
        → names_told s past ≡ option_to_list peer }
{}

/// A failure stays, and a pass until we fail.
pub fn outcomes_stay()
    ensures peer { (s : Setting) (c : PhaseAt) (past : List PhaseAt) → outcome_in s past ≡ PeerFailed → outcome_in s (c ∷ past) ≡ PeerFailed }
    ensures ours { (s : Setting) (c : PhaseAt) (past : List PhaseAt) → outcome_in s past ≡ WeFailed → outcome_in s (c ∷ past) ≡ WeFailed }
    ensures passed { (s : Setting) (c : PhaseAt) (past : List PhaseAt) (peer : Option (List ℕ)) (allowed : Allow) → outcome_in s past ≡ Passed peer allowed
        → (outcome_in s (c ∷ past) ≡ Passed peer allowed) ⊎ (outcome_in s (c ∷ past) ≡ WeFailed) }
{}

/// Where time passes 60 seconds or more after the beginning, the phase goes on no more.
pub fn sixty_seconds_at_most()
    ensures { (s : Setting) (past : List PhaseAt) (began now : ℕ) → begun_at past ≡ Some began → began + 60000 ≤ now
        → outcome_in s (record { now = now; call = waits } ∷ past) ≢ Going }
{}
