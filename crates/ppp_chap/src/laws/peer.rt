//! One who proves himself by CHAP, over every list of calls.

ghost use Rattle.std.specs.Prelude.{◌≡◌, ◌↔◌, ℕ, List, ◌∷◌, Option, Some, None};
ghost use Rattle.ppp_packet.specs.declared.auth_out.AuthOutcome.TheVariants.{Waiting, Passed, Refused, Unanswered};
ghost use Rattle.ppp_proving.specs.Calls.{Against, Answered};
ghost use Rattle.ppp_proving.specs.Which.{NoneOf, SomeOf};
ghost use Rattle.ppp_chap.specs.Challenges.{Accepts, Challenges, Rejects};
ghost use Rattle.ppp_chap.specs.Packets.{response_packet};
ghost use Rattle.ppp_chap.specs.Passes.{value_of};
ghost use Rattle.ppp_chap.specs.Peer.{AreLawful, IsLawful, outcome_in, secret_for};

/// A Success, a Failure, or a challenge for which there is no secret, decides: the latter two count after a Success too.
pub fn results_decide()
    ensures passed { (name : List ℕ) (password : Option (List ℕ)) (past : List Answered) (who : List ℕ) (line : ℕ) → (outcome_in name password past ≡ Passed who line)
        ↔ ((who ≡ name) × (line ≡ 0) × SomeOf Accepts past × NoneOf (Rejects name password) past) }
    ensures refused { (name : List ℕ) (password : Option (List ℕ)) (past : List Answered) (who : List ℕ) → (outcome_in name password past ≡ Refused who)
        ↔ ((who ≡ name) × SomeOf (Rejects name password) past) }
    ensures waits { (name : List ℕ) (password : Option (List ℕ)) (past : List Answered) → (outcome_in name password past ≡ Waiting)
        ↔ (NoneOf Accepts past × NoneOf (Rejects name password) past) }
    ensures never { (name : List ℕ) (password : Option (List ℕ)) (past : List Answered) (times : ℕ) → outcome_in name password past ≡ Unanswered times → ⊥ }
{}

/// Each challenge for which there is a secret is answered by its value, at any time.
pub fn challenges_are_answered()
    ensures { (name : List ℕ) (password : Option (List ℕ)) (h : Answered) (past : List Answered) → IsLawful name password h past
        → (a : Against) (id : ℕ) (value challenger secret : List ℕ) → Challenges h.call a id value challenger → secret_for password name a challenger ≡ Some secret
        → h.packet ≡ Some (response_packet id (value_of id secret value) name) }
{}

/// Some run passes, one is refused, one is refused after it had passed, and one has no secret.
pub fn some_pass()
    ensures passed { (name secret : List ℕ) → (past : List Answered) × AreLawful name (Some secret) past × (outcome_in name (Some secret) past ≡ Passed name 0) }
    ensures refused { (name secret : List ℕ) → (past : List Answered) × AreLawful name (Some secret) past × (outcome_in name (Some secret) past ≡ Refused name) }
    ensures turned { (name secret : List ℕ) → (h : Answered) × (past : List Answered) × AreLawful name (Some secret) (h ∷ past)
        × (outcome_in name (Some secret) past ≡ Passed name 0) × (outcome_in name (Some secret) (h ∷ past) ≡ Refused name) }
    ensures no_secret { (name : List ℕ) → (past : List Answered) × AreLawful name None past × (outcome_in name None past ≡ Refused name) }
{}
