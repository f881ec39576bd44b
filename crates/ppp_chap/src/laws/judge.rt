//! A judge of CHAP, over every list of calls.

ghost use Rattle.std.specs.Prelude.{◌≡◌, ◌↔◌, ◌≤◌, ◌++◌, ◌∷◌, ℕ, List, [], length, Some, None, false};
ghost use Rattle.ppp_packet.specs.declared.packet.Packet.{Packet};
ghost use Rattle.ppp_packet.specs.declared.auth_out.AuthOutcome.TheVariants.{Waiting, Passed, Refused, Unanswered};
ghost use Rattle.ppp_proving.specs.Calls.{Against, Answered, hears, is_waiting};
ghost use Rattle.ppp_proving.specs.Own.{SendsOwn};
ghost use Rattle.ppp_proving.specs.Which.{NoneOf};
ghost use Rattle.ppp_chap.specs.Judge.{AreLawful, outcome_in};
ghost use Rattle.ppp_chap.specs.Packets.{challenge_packet};
ghost use Rattle.ppp_chap.specs.Passes.{Passes, passing_line};
ghost use Rattle.ppp_chap.specs.Responses.{FirstResponds, FirstTires, GoesUnanswered, IsKnown, Responds};

/// The number of the line by which one passes is told exactly where one passes, and a value that passes has 16 octets.
pub fn lines_pass()
    ensures told { (a : Against) (challenge name value : List ℕ) (number : ℕ) → (passing_line a challenge name value ≡ Some number) ↔ Passes a challenge name value number }
    ensures sixteen { (a : Against) (challenge name value : List ℕ) (number : ℕ) → Passes a challenge name value number → length value ≡ 16 }
{}

/// The first response to our challenge decides, unless it was given up before: its sender has passed exactly where he passes by a line,
/// and was refused exactly where he passes by none.
pub fn first_response_decides()
    ensures passed { (challenge : List ℕ) (past : List Answered) (name : List ℕ) (number : ℕ) → (outcome_in challenge past ≡ Passed name number)
        ↔ ((a : Against) × (value : List ℕ) × FirstResponds past a name value × Passes a challenge name value number) }
    ensures refused { (challenge : List ℕ) (past : List Answered) (name : List ℕ) → (outcome_in challenge past ≡ Refused name)
        ↔ ((a : Against) × (value : List ℕ) × FirstResponds past a name value × ((number : ℕ) → Passes a challenge name value number → ⊥)) }
    ensures unanswered { (challenge : List ℕ) (past : List Answered) (times : ℕ) → (outcome_in challenge past ≡ Unanswered times)
        ↔ ((times ≡ 10) × FirstTires past) }
    ensures waits { (challenge : List ℕ) (past : List Answered) → (outcome_in challenge past ≡ Waiting) ↔ NoneOf IsKnown past }
    // Whatever comes later.
    ensures stays { (challenge : List ℕ) (later past : List Answered) → is_waiting (outcome_in challenge past) ≡ false
        → outcome_in challenge (later ++ past) ≡ outcome_in challenge past }
{}

/// The challenge is always the same, and is sent whenever it is due, ten times at most, each time 3 seconds or more after the one before.
pub fn challenges_are_few()
    ensures { (name challenge : List ℕ) (past : List Answered) → AreLawful name challenge past → SendsOwn (challenge_packet challenge name) (outcome_in challenge) past }
{}

/// Each response to our challenge gets the answer that the first one deserved: a Success where its sender passes by a line, a Failure where by
/// none, and nothing where the challenge was given up before or wasn't sent. No other packet is answered.
pub fn responses_are_answered()
    ensures success { (our_name challenge : List ℕ) (h : Answered) (past : List Answered) (a b : Against) (name value asked word : List ℕ) (number : ℕ)
        → AreLawful our_name challenge (h ∷ past) → Responds h.call a name value → FirstResponds (h ∷ past) b asked word
        → Passes b challenge asked word number → h.packet ≡ Some (record { code = 3; id = 1; body = [] }) }
    ensures failure { (our_name challenge : List ℕ) (h : Answered) (past : List Answered) (a b : Against) (name value asked word : List ℕ)
        → AreLawful our_name challenge (h ∷ past) → Responds h.call a name value → FirstResponds (h ∷ past) b asked word
        → ((number : ℕ) → Passes b challenge asked word number → ⊥) → h.packet ≡ Some (record { code = 4; id = 1; body = [] }) }
    ensures silent { (our_name challenge : List ℕ) (h : Answered) (past : List Answered) (p : Packet) (a : Against)
        → AreLawful our_name challenge (h ∷ past) → h.call ≡ hears p a → GoesUnanswered h past → h.packet ≡ None }
{}

/// Whoever passes by a line has passed in some run, and whoever passes by none was refused in some; some run is given up. Some one passes.
pub fn some_pass()
    ensures passed { (our_name challenge : List ℕ) (a : Against) (name value : List ℕ) (number : ℕ) → length name ≤ 255 → Passes a challenge name value number
        → (past : List Answered) × AreLawful our_name challenge past × (outcome_in challenge past ≡ Passed name number) }
    ensures refused { (our_name challenge : List ℕ) (a : Against) (name value : List ℕ) → length name ≤ 255 → ((number : ℕ) → Passes a challenge name value number → ⊥)
        → (past : List Answered) × AreLawful our_name challenge past × (outcome_in challenge past ≡ Refused name) }
    ensures unanswered { (our_name challenge : List ℕ) → (past : List Answered) × AreLawful our_name challenge past × (outcome_in challenge past ≡ Unanswered 10) }
    ensures one { (challenge : List ℕ) → (a : Against) × (name : List ℕ) × (value : List ℕ) × (length name ≤ 255) × Passes a challenge name value 2 }
    ensures another { (challenge : List ℕ) → (a : Against) × (name : List ℕ) × (value : List ℕ) × (length name ≤ 255) × ((number : ℕ) → Passes a challenge name value number → ⊥) }
{}
