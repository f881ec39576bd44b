//! One who proves himself by PAP, over every list of calls.

ghost use Rattle.std.specs.Prelude.{◌≡◌, ◌↔◌, ℕ, List, ◌∷◌};
ghost use Rattle.ppp_packet.specs.declared.auth_out.AuthOutcome.TheVariants.{Waiting, Passed, Refused, Unanswered};
ghost use Rattle.ppp_proving.specs.Calls.{Answered};
ghost use Rattle.ppp_proving.specs.Own.{SendsOwn};
ghost use Rattle.ppp_proving.specs.Which.{NoneOf, SomeOf};
ghost use Rattle.ppp_pap.specs.Answers.{Accepts, GaveUp, Rejects};
ghost use Rattle.ppp_pap.specs.Packets.{request_packet};
ghost use Rattle.ppp_pap.specs.Peer.{AreLawful, outcome_in};

/// An Ack, a Nak, or that neither came to ten requests, decides: a Nak counts after an Ack too, and neither counts once it was given up.
pub fn answers_decide()
    ensures passed { (name : List ℕ) (past : List Answered) (who : List ℕ) (line : ℕ) → (outcome_in name past ≡ Passed who line)
        ↔ ((who ≡ name) × (line ≡ 0) × SomeOf Accepts past × NoneOf Rejects past × NoneOf GaveUp past) }
    ensures refused { (name : List ℕ) (past : List Answered) (who : List ℕ) → (outcome_in name past ≡ Refused who)
        ↔ ((who ≡ name) × SomeOf Rejects past × NoneOf GaveUp past) }
    ensures unanswered { (name : List ℕ) (past : List Answered) (times : ℕ) → (outcome_in name past ≡ Unanswered times)
        ↔ ((times ≡ 10) × SomeOf GaveUp past) }
    ensures waits { (name : List ℕ) (past : List Answered) → (outcome_in name past ≡ Waiting)
        ↔ (NoneOf Accepts past × NoneOf Rejects past × NoneOf GaveUp past) }
{}

/// The request is always the same, and is sent whenever it is due, ten times at most, each time 3 seconds or more after the one before.
pub fn requests_are_few()
    ensures { (name password : List ℕ) (past : List Answered) → AreLawful name password past → SendsOwn (request_packet name password) (outcome_in name) past }
{}

/// Some run passes, one is refused, one is refused after it had passed, and one is given up.
pub fn some_pass()
    ensures passed { (name password : List ℕ) → (past : List Answered) × AreLawful name password past × (outcome_in name past ≡ Passed name 0) }
    ensures refused { (name password : List ℕ) → (past : List Answered) × AreLawful name password past × (outcome_in name past ≡ Refused name) }
    ensures turned { (name password : List ℕ) → (h : Answered) × (past : List Answered) × AreLawful name password (h ∷ past)
        × (outcome_in name past ≡ Passed name 0) × (outcome_in name (h ∷ past) ≡ Refused name) }
    ensures unanswered { (name password : List ℕ) → (past : List Answered) × AreLawful name password past × (outcome_in name past ≡ Unanswered 10) }
{}
