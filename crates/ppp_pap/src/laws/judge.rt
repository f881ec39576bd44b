//! A judge of PAP, over every list of calls.

ghost use Rattle.std.specs.Prelude.{◌≡◌, ◌↔◌, ◌++◌, ◌∷◌, ℕ, List, [], Some, None, false};
ghost use Rattle.ppp_packet.specs.declared.auth_out.AuthOutcome.TheVariants.{Waiting, Passed, Refused, Unanswered};
ghost use Rattle.ppp_proving.specs.Calls.{Against, Answered, is_waiting};
ghost use Rattle.ppp_proving.specs.Which.{NoneOf};
ghost use Rattle.ppp_pap.specs.Judge.{AreLawful, outcome_in};
ghost use Rattle.ppp_pap.specs.Passes.{Passes, passing_line};
ghost use Rattle.ppp_pap.specs.Requests.{Asks, FirstAsks, IsRequest};

/// The number of the line by which one passes is told exactly where one passes.
pub fn lines_pass()
    ensures { (a : Against) (name password : List ℕ) (number : ℕ) → (passing_line a name password ≡ Some number) ↔ Passes a name password number }
{}

/// The first request decides: its sender has passed exactly where he passes by a line, and was refused exactly where he passes by none.
pub fn first_request_decides()
    ensures passed { (past : List Answered) (name : List ℕ) (number : ℕ) → (outcome_in past ≡ Passed name number)
        ↔ ((a : Against) × (password : List ℕ) × FirstAsks past a name password × Passes a name password number) }
    ensures refused { (past : List Answered) (name : List ℕ) → (outcome_in past ≡ Refused name)
        ↔ ((a : Against) × (password : List ℕ) × FirstAsks past a name password × ((number : ℕ) → Passes a name password number → ⊥)) }
    ensures waits { (past : List Answered) → (outcome_in past ≡ Waiting) ↔ NoneOf IsRequest past }
    ensures never { (past : List Answered) (times : ℕ) → outcome_in past ≡ Unanswered times → ⊥ }
    // Whatever comes later.
    ensures stays { (later past : List Answered) → is_waiting (outcome_in past) ≡ false → outcome_in (later ++ past) ≡ outcome_in past }
{}

/// Each request gets the answer that the first one deserved, with its own identifier: an Ack where its sender passes by a line, a Nak where by
/// none. No other call is answered.
pub fn requests_are_answered()
    ensures acknowledged { (h : Answered) (past : List Answered) (a b : Against) (name password asked word : List ℕ) (number : ℕ) → AreLawful (h ∷ past)
        → (asks : Asks h.call a name password) → FirstAsks (h ∷ past) b asked word → Passes b asked word number
        → h.packet ≡ Some (record { code = 2; id = asks.id; body = 0 ∷ [] }) }
    ensures refused { (h : Answered) (past : List Answered) (a b : Against) (name password asked word : List ℕ) → AreLawful (h ∷ past)
        → (asks : Asks h.call a name password) → FirstAsks (h ∷ past) b asked word → ((number : ℕ) → Passes b asked word number → ⊥)
        → h.packet ≡ Some (record { code = 3; id = asks.id; body = 0 ∷ [] }) }
    ensures silent { (h : Answered) (past : List Answered) → AreLawful (h ∷ past) → (IsRequest h past → ⊥) → h.packet ≡ None }
{}

/// Whoever passes by a line has passed in some run, and whoever passes by none was refused in some; some one passes.
pub fn some_pass()
    ensures passed { (a : Against) (name password : List ℕ) (number : ℕ) → Passes a name password number
        → (past : List Answered) × AreLawful past × (outcome_in past ≡ Passed name number) }
    ensures refused { (a : Against) (name password : List ℕ) → ((number : ℕ) → Passes a name password number → ⊥)
        → (past : List Answered) × AreLawful past × (outcome_in past ≡ Refused name) }
    ensures one { (a : Against) × (name : List ℕ) × (password : List ℕ) × Passes a name password 2 }
    ensures another { (a : Against) × (name : List ℕ) × (password : List ℕ) × ((number : ℕ) → Passes a name password number → ⊥) }
{}
