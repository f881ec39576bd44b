//! Worked traces of one link, and what is printed of steps, by the definitions alone.

ghost use Rattle.std.specs.Prelude.{◌≡◌, ◌-◌, ℕ, true, false, None, Some, [], ◌∷◌, codes, slice_get, slice_set};
ghost use Rattle.ppp_base.specs.declared.signal_word.SignalWord.TheVariants.{Term};
ghost use Rattle.ppp_bundle.specs.State.{UnitState};
ghost use Rattle.ppp_fsm.specs.declared.fsm.Limits.{Limits};
ghost use Rattle.ppp_link_rules.specs.Rows.{nomagic, usual};
ghost use Rattle.ppp_mark.specs.declared.mark.Mark.{Mark};
ghost use Rattle.ppp_mark.specs.Marks.{mark};
ghost use Rattle.ppp_outside.specs.declared.replay_spawner.ReplaySpawner.{ReplaySpawner};
ghost use Rattle.ppp_outside.specs.declared.spawner.ScriptEnd.TheVariants.{Exit};
ghost use Rattle.ppp_trace.specs.declared.world_step.WorldStep.TheVariants.{Begin, Carry, DialFail, DialOk, Hook, LineEnd, LineLeft, Rx, RxAt, SentFail, SentOk, Word};
ghost use Rattle.ppp_world_rules.specs.Rows.{after_steps, first_link, stepped, told_by, with_marks};
ghost use Rattle.ppp_trace.specs.declared.world_step.WorldStep.{WorldStep};
ghost use Rattle.ppp_world_rules.specs.Place.{PlaceState};
ghost use Rattle.ppp_world_rules.specs.Router.{Router, link_mark, unit_mark};
ghost use Rattle.ppp_world_rules.specs.Summary.{summary_line};
ghost use Rattle.ppp_world_rules.specs.TraceText.{run_text, step_text};
ghost use Rattle.ppp_world_rules.specs.Turns.{turn_of};
ghost use Rattle.ppp_world_rules.specs.WorldPart.{Answer, LinkStep, new_marks, silent};

/// The dial fails, without a signal to stop before it and with one.
pub fn a_dial_that_fails()
    ensures begins { (limits : Limits) → told_by (Begin 1) (first_link limits usual) ≡ mark 0 1 0 0 1 ∷ [] }
    ensures fails { (limits : Limits) → told_by (DialFail 1) (after_steps (Begin 1 ∷ []) (first_link limits usual)) ≡ mark 0 15 1 0 1 ∷ mark 0 16 0 0 1 ∷ mark 0 19 7 0 0 ∷ [] }
    ensures signal { (limits : Limits) → told_by (Word 1 Term) (after_steps (Begin 1 ∷ []) (first_link limits usual)) ≡ mark 0 14 3 0 0 ∷ mark 0 15 11 3 1 ∷ [] }
    ensures stopped { (limits : Limits) → told_by (DialOk 1) (after_steps (Begin 1 ∷ Word 1 Term ∷ []) (first_link limits usual)) ≡ mark 0 16 0 0 1 ∷ mark 0 19 5 0 0 ∷ [] }
{}

/// The line comes, the first request is written, and the line ends.
pub fn a_line_that_ends()
    ensures comes { (limits : Limits) → told_by (DialOk 1) (after_steps (Begin 1 ∷ []) (first_link limits nomagic)) ≡ mark 0 2 0 0 1 ∷ [] }
    ensures sent { (limits : Limits) → (turn_of (SentOk 1) (after_steps (Begin 1 ∷ DialOk 1 ∷ []) (first_link limits nomagic))).written
        ≡ Some (0x7e ∷ 0xff ∷ 0x7d ∷ 0x23 ∷ 0xc0 ∷ 0x21 ∷ 0x7d ∷ 0x21 ∷ 0x7d ∷ 0x21 ∷ 0x7d ∷ 0x20 ∷ 0x7d ∷ 0x2e ∷ 0x7d ∷ 0x22 ∷ 0x7d ∷ 0x26 ∷ 0x7d ∷ 0x20 ∷ 0x7d ∷ 0x20
        ∷ 0x7d ∷ 0x20 ∷ 0x7d ∷ 0x20 ∷ 0x7d ∷ 0x27 ∷ 0x7d ∷ 0x22 ∷ 0x7d ∷ 0x28 ∷ 0x7d ∷ 0x22 ∷ 0x70 ∷ 0x34 ∷ 0x7e ∷ []) }
    ensures lost { (limits : Limits) → (turn_of (SentFail 1) (after_steps (Begin 1 ∷ DialOk 1 ∷ []) (first_link limits nomagic))).written ≡ None }
    ensures ended { (limits : Limits) → told_by (LineEnd 1) (after_steps (Begin 1 ∷ DialOk 1 ∷ SentOk 1 ∷ []) (first_link limits nomagic)) ≡ mark 0 15 10 0 1 ∷ mark 0 16 0 0 1 ∷ mark 0 19 16 0 0 ∷ [] }
{}

/// Octets without a line, of another session or at another offset, a line that is left while it is wanted, and the end of a script
/// that isn't out are stale. Octets at their place are taken.
pub fn what_is_stale()
    ensures no_line { (limits : Limits) → (turn_of (Rx 1 (0x7e ∷ [])) (after_steps (Begin 1 ∷ []) (first_link limits nomagic))).taken ≡ false }
    ensures session { (limits : Limits) → (turn_of (RxAt 1 2 0 (0x7e ∷ [])) (after_steps (Begin 1 ∷ DialOk 1 ∷ []) (first_link limits nomagic))).taken ≡ false }
    ensures offset { (limits : Limits) → (turn_of (RxAt 1 1 1 (0x7e ∷ [])) (after_steps (Begin 1 ∷ DialOk 1 ∷ []) (first_link limits nomagic))).taken ≡ false }
    ensures present { (limits : Limits) → (turn_of (RxAt 1 1 1 (0x7e ∷ [])) (after_steps (Begin 1 ∷ DialOk 1 ∷ Rx 1 (0x7e ∷ []) ∷ []) (first_link limits nomagic))).taken ≡ true }
    ensures wanted { (limits : Limits) → (turn_of (LineLeft 1) (after_steps (Begin 1 ∷ DialOk 1 ∷ []) (first_link limits nomagic))).taken ≡ false }
    ensures script { (limits : Limits) → (turn_of (Hook 1 1 (Exit 0)) (after_steps (Begin 1 ∷ DialOk 1 ∷ []) (first_link limits nomagic))).taken ≡ false }
{}

/// What is printed of a step: its number and whether it was taken, the new marks of links and then of units, the octets that a link
/// wrote, and the datagrams that units gave. A writing that fails prints no octets.
pub fn what_is_printed()
    ensures begins { run_text 1 (Begin 1 ∷ []) (record { answer = silent true; marks = link_mark 1 (mark 0 1 0 0 1) ∷ []; given = [] } ∷ []) ≡ codes "1 taken\n link 1 0 attempt 0 0 1\n" }
    ensures stale { step_text 2 (DialOk 1) (record { answer = silent false; marks = []; given = [] }) ≡ codes "2 stale\n" }
    ensures written { step_text 3 (SentOk 16) (record { answer = record { taken = true; written = Some (0x7e ∷ 0xff ∷ 0x05 ∷ []) }; marks = []; given = [] }) ≡ codes "3 taken\n link 16 out 7eff05\n" }
    ensures lost { step_text 4 (SentFail 1) (record { answer = silent true; marks = link_mark 1 (mark 0 15 9 0 1) ∷ []; given = [] }) ≡ codes "4 taken\n link 1 0 cause 9 0 1\n" }
    ensures order { step_text 5 (Carry 2) (record { answer = silent true; marks = link_mark 2 (mark 30 11 0 0 1) ∷ unit_mark 0 (mark 7 33 2 0 1) ∷ []; given = record { head = 0; octets = 0x45 ∷ [] } ∷ record { head = 15; octets = [] } ∷ [] })
        ≡ codes "5 taken\n link 2 30 member 0 0 1\n unit 0 7 in 2 0 1\n unit 0 give 45\n unit 15 give\n" }
    ensures new { (r : Router) (p : PlaceState) (u : UnitState ReplaySpawner) (a b m n : Mark)
        → new_marks (with_marks (a ∷ []) (b ∷ []) p u r) (with_marks (m ∷ a ∷ []) (n ∷ b ∷ []) p u r) ≡ link_mark 1 m ∷ unit_mark 0 n ∷ [] }
    ensures summary { summary_line (record { answer = silent true; marks = link_mark 1 (mark 0 1 0 0 1) ∷ []; given = [] } ∷ record { answer = silent false; marks = []; given = [] } ∷ [])
        ≡ codes "steps 2 taken 1 stale 1 marks 1 given 0\n" }
{}

/// A step of a link that the options have is what the worked traces go by: its event, and then its errands are taken out. All else
/// stays as it is.
pub fn what_a_step_of_a_link_leaves()
    ensures link { (link : ℕ) (step : WorldStep) (old new : Router) (answer : Answer) (p : PlaceState) → slice_get old.links (link - 1) ≡ Some p → LinkStep link step old new answer
        → new ≡ record old { links = slice_set old.links (link - 1) (stepped step p) } }
    ensures answer { (link : ℕ) (step : WorldStep) (old new : Router) (answer : Answer) (p : PlaceState) → slice_get old.links (link - 1) ≡ Some p → LinkStep link step old new answer
        → answer ≡ record { taken = (turn_of step p).taken; written = (turn_of step p).written } }
    ensures none { (link : ℕ) (step : WorldStep) (old new : Router) (answer : Answer) → slice_get old.links (link - 1) ≡ None → LinkStep link step old new answer → (new ≡ old) × (answer ≡ silent false) }
{}
