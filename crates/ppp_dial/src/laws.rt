// Laws of the definitions that the contracts cite. In lists the newest call comes first.
ghost use Rattle.std.specs.Prelude.{◌≡◌, ◌≢◌, ◌↔◌, ◌⊎◌, ◌+◌, ◌*◌, ◌≤◌, ℕ, List, ◌++◌, ◌∷◌, Some, true, false, All, IsSome, count_by};
ghost use Rattle.ppp_dial.specs.DialLaw.{DialLaw, MayCome, is_allowed};
ghost use Rattle.ppp_dial.specs.DialState.{StandsFor, IsUnderWay};
ghost use Rattle.ppp_dial.specs.Happened.{DialCall, Happened};
ghost use Rattle.ppp_dial.specs.InPlace.{EndsWithHold, FinishesByRoom, FinishesBySession, FinishesByStop, Follows, GoesOn, IsSessionOver, IsStopping, is_failure, is_success};
ghost use Rattle.ppp_dial.specs.LookingBack.{SoFar, failures_in, finished_with, is_nothing, is_stop, is_stopped_in, is_under_way, last_in, so_far};
ghost use Rattle.ppp_dial.specs.Answer.{answer_to};
ghost use Rattle.ppp_dial.specs.declared.call.CallKind.TheVariants.{Wake, SessionOver, Stop};
ghost use Rattle.ppp_dial.specs.declared.dial.Dial.{Dial};
ghost use Rattle.ppp_dial.specs.declared.now.DialNow.{DialNow};
ghost use Rattle.ppp_dial.specs.declared.now.DialNow.TheVariants.{Nothing, Begin, Hold, Wait, Finish};
ghost use Rattle.ppp_dial.specs.declared.policy.DialPolicy.{DialPolicy};
ghost use Rattle.ppp_dial.specs.declared.session_end.SessionEnd.{SessionEnd};

/// Over every list that keeps the law, each call that may come has exactly one answer that the law allows: that of the rules.
pub fn exactly_one_answer()
    ensures some { (policy : DialPolicy) (before : SoFar) (past : List Happened) (call : DialCall) → DialLaw policy before past
        → MayCome call.kind (so_far before past)
        → DialLaw policy before (record { call = call; answer = answer_to policy (so_far before past) call } ∷ past) }
    ensures one { (policy : DialPolicy) (before : SoFar) (past : List Happened) (h : Happened) → DialLaw policy before (h ∷ past)
        → (h.answer ≡ answer_to policy (so_far before past) h.call) × MayCome h.call.kind (so_far before past) }
{}

/// What each answer, in a list that keeps the law, says of the calls before it.
pub fn each_in_its_place()
    ensures attempt { (policy : DialPolicy) (before : SoFar) (later earlier : List Happened) (h : Happened)
        → DialLaw policy before (later ++ h ∷ earlier) → h.answer ≡ Begin
        → Follows policy (last_in before earlier) h.call.kind h.call.at × (1024 ≤ h.call.room) × (policy.demand ≡ true → h.call.kind ≡ Wake) }
    ensures wait { (policy : DialPolicy) (before : SoFar) (later earlier : List Happened) (h : Happened)
        → DialLaw policy before (later ++ h ∷ earlier) → h.answer ≡ Wait
        → Follows policy (last_in before earlier) h.call.kind h.call.at × (policy.demand ≡ true) × (h.call.kind ≢ Wake) }
    ensures hold { (policy : DialPolicy) (before : SoFar) (later earlier : List Happened) (h : Happened) (ms : ℕ)
        → DialLaw policy before (later ++ h ∷ earlier) → h.answer ≡ Hold ms
        → EndsWithHold policy h.call.kind × ((last_in before earlier).0 ≡ Begin) × (ms ≡ policy.holdoff_s * 1000) }
    ensures goes_on { (policy : DialPolicy) (before : SoFar) (later earlier : List Happened) (h : Happened)
        → DialLaw policy before (later ++ h ∷ earlier) → IsSessionOver h.call.kind → ((status : ℕ) → h.answer ≢ Finish status)
        → GoesOn policy before earlier h }
    ensures finish { (policy : DialPolicy) (before : SoFar) (later earlier : List Happened) (h : Happened) (status : ℕ)
        → DialLaw policy before (later ++ h ∷ earlier) → h.answer ≡ Finish status
        → FinishesByStop before earlier h status ⊎ (FinishesBySession policy before earlier h status ⊎ FinishesByRoom policy before earlier h status) }
    ensures nothing { (policy : DialPolicy) (before : SoFar) (later earlier : List Happened) (h : Happened)
        → DialLaw policy before (later ++ h ∷ earlier) → h.answer ≡ Nothing
        → (¬ IsSessionOver h.call.kind) × (¬ Follows policy (last_in before earlier) h.call.kind h.call.at)
        × (h.call.kind ≡ Stop → ((last_in before earlier).0 ≡ Begin) ⊎ IsSome (finished_with (so_far before earlier))) }
    ensures finished { (policy : DialPolicy) (before : SoFar) (later earlier : List Happened) (h : Happened) (status : ℕ)
        → DialLaw policy before (later ++ h ∷ earlier) → finished_with (so_far before earlier) ≡ Some status → h.answer ≡ Nothing }
{}

/// After a stop nothing comes but the finish with 5.
pub fn a_stop_is_the_end()
    ensures { (policy : DialPolicy) (before : SoFar) (later earlier : List Happened) (h : Happened) → h.call.kind ≡ Stop
        → DialLaw policy before (later ++ h ∷ earlier) → All (λ (x : Happened). IsStopping x.answer) later }
{}

/// What looking back gives, by places: the last answer other than Nothing; the failures since the last session that was live, or all of them;
/// whether a stop was called.
pub fn looking_back()
    ensures last { (before : SoFar) (later earlier : List Happened) (h : Happened) → is_nothing h.answer ≡ false
        → All (λ (x : Happened). x.answer ≡ Nothing) later → last_in before (later ++ h ∷ earlier) ≡ (h.answer, h.call.at) }
    ensures none { (before : SoFar) (calls : List Happened) → All (λ (x : Happened). x.answer ≡ Nothing) calls → last_in before calls ≡ before.last }
    ensures failures { (before : SoFar) (later earlier : List Happened) (h : Happened) → is_success h.call.kind ≡ true
        → All (λ (x : Happened). is_success x.call.kind ≡ false) later
        → failures_in before (later ++ h ∷ earlier) ≡ count_by (λ (x : Happened). is_failure x.call.kind) later }
    ensures only_failures { (before : SoFar) (calls : List Happened) → All (λ (x : Happened). is_success x.call.kind ≡ false) calls
        → failures_in before calls ≡ before.failures + count_by (λ (x : Happened). is_failure x.call.kind) calls }
    ensures stop { (before : SoFar) (later earlier : List Happened) (h : Happened) → h.call.kind ≡ Stop
        → is_stopped_in before (later ++ h ∷ earlier) ≡ true }
    ensures no_stop { (before : SoFar) (calls : List Happened) → All (λ (x : Happened). is_stop x.call.kind ≡ false) calls
        → is_stopped_in before calls ≡ before.stopped }
{}

/// A list that is cut into parts keeps the law exactly where each part does, over what looking back over the earlier parts gives.
pub fn a_list_in_parts()
    ensures seen { (before : SoFar) (later earlier : List Happened) → so_far before (later ++ earlier) ≡ so_far (so_far before earlier) later }
    ensures law { (policy : DialPolicy) (before : SoFar) (later earlier : List Happened)
        → DialLaw policy before (later ++ earlier) ↔ (DialLaw policy (so_far before earlier) later × DialLaw policy before earlier) }
{}

/// A call that was passed over may be left out of a list that keeps the law, unless it is the first stop, called
/// while a session is under way.
pub fn passed_over_leaves_nothing()
    ensures { (policy : DialPolicy) (before : SoFar) (later earlier : List Happened) (h : Happened) → h.answer ≡ Nothing
        → (h.call.kind ≡ Stop → (is_stopped_in before earlier ≡ true) ⊎ IsSome (finished_with (so_far before earlier)))
        → DialLaw policy before (later ++ h ∷ earlier) → DialLaw policy before (later ++ earlier) }
{}

/// An attempt is under way in a dial exactly where looking back over its calls says so.
pub fn under_way_by_calls()
    ensures { (before : SoFar) (dial : Dial) (calls : List Happened) → StandsFor before dial calls
        → IsUnderWay dial ↔ (is_under_way (so_far before calls) ≡ true) }
{}
