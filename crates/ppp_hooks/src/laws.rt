// Laws of the definitions that the contracts cite.
ghost use Rattle.std.specs.Prelude.{◌≡◌, ◌≤◌, ◌↔◌, ℕ, [], ◌∷◌, ◌++◌, List, true, false, is_some, reverse};
ghost use Rattle.ppp_base.specs.declared.hook_target.HookTarget.{HookTarget};
ghost use Rattle.ppp_outside.specs.declared.hook_words.HookArgs.{HookArgs};
ghost use Rattle.ppp_outside.specs.declared.spawner.ScriptEnd.TheVariants.{Exit};
ghost use Rattle.ppp_hooks.specs.HookCall.{HookCall, Opens, Closes, TakesJob, Ends, AreAllowed, marks_of};
ghost use Rattle.ppp_hooks.specs.HookFacts.{HasArgs, StandsFor};
ghost use Rattle.ppp_hooks.specs.declared.facts.HookFacts.{HookFacts};
ghost use Rattle.ppp_hooks.specs.HookRuns.{ran_in};
ghost use Rattle.ppp_hooks.specs.HookWords.{words_in};
ghost use Rattle.ppp_hooks.specs.HookLaw.{HookLaw};
ghost use Rattle.ppp_hooks.specs.HookMark.{HookMark, Opened, Closed, Started, Ended};
ghost use Rattle.ppp_hooks.specs.HookPast.{IsLawful, IsSettled, MayFollow, greatest_in, open_in};
ghost use Rattle.ppp_hooks.specs.HookPlace.{AreStarts, MayStand};
ghost use Rattle.ppp_hooks.specs.HookRule.{due_after};
ghost use Rattle.ppp_hooks.specs.Settled.{Settled};

/// A lawful past, read from its oldest mark on, keeps the law of site scripts. Where it is settled, its scripts
/// agree with the protocol.
pub fn law_of_past()
    ensures law { (past : List HookMark) → IsLawful past → HookLaw 0 (reverse past) }
    ensures settled { (past : List HookMark) → IsSettled past → Settled (reverse past) (is_some (open_in past)) }
{}

/// Over every list of calls whose conditions hold, the marks that they leave keep the law of site scripts, and the
/// scripts agree with the protocol.
pub fn law_of_calls()
    ensures law { (calls : List HookCall) → AreAllowed calls → HookLaw 0 (reverse (marks_of calls)) }
    ensures settled { (calls : List HookCall) → AreAllowed calls → Settled (reverse (marks_of calls)) (is_some (open_in (marks_of calls))) }
{}

/// What the rule says of a closing, and of a closing and a reopening, while ip-up of opening 1 runs. The newest call
/// and the newest mark come first.
pub fn closing_while_up_runs()
    ensures closing { marks_of (Ends (Exit 0) ∷ Closes ∷ TakesJob ∷ Opens 1 ∷ [])
        ≡ Started false 1 ∷ Ended (Exit 0) 1 ∷ Closed 1 ∷ Started true 1 ∷ Opened 1 ∷ [] }
    ensures reopening { marks_of (Ends (Exit 0) ∷ TakesJob ∷ Ends (Exit 0) ∷ Opens 2 ∷ Closes ∷ TakesJob ∷ Opens 1 ∷ [])
        ≡ Started true 2 ∷ Ended (Exit 0) 2 ∷ Started false 1 ∷ Ended (Exit 0) 1 ∷ Opened 2 ∷ Closed 1 ∷ Started true 1 ∷ Opened 1 ∷ [] }
    ensures allowed { AreAllowed (Ends (Exit 0) ∷ TakesJob ∷ Ends (Exit 0) ∷ Opens 2 ∷ Closes ∷ TakesJob ∷ Opens 1 ∷ []) }
{}

/// The law of site scripts can be decided mark by mark: one more mark keeps it exactly where it holds before and the
/// mark may stand there. The newest mark of a past comes first.
pub fn one_more_mark()
    ensures none { (b : ℕ) → HookLaw b [] }
    ensures more { (b : ℕ) (past : List HookMark) (mark : HookMark) → HookLaw b (reverse (mark ∷ past)) ↔ (HookLaw b (reverse past) × MayStand b past mark) }

    // And whether the scripts agree with the protocol is told by the last start, the opening that is open, and the counts.
    ensures settled { (past : List HookMark) → Settled (reverse past) (is_some (open_in past)) ↔ IsSettled past }
{}

/// The law and the agreement leave no choice: behind a lawful past and a mark that may follow it, the one list of
/// starts that keeps both is the one that the rule starts. The newest mark comes first.
pub fn no_other_choice()
    ensures only { (past starts : List HookMark) (mark : HookMark) → IsLawful past → MayFollow past mark → AreStarts starts
        → HookLaw 0 (reverse (starts ++ mark ∷ past)) → Settled (reverse (starts ++ mark ∷ past)) (is_some (open_in (mark ∷ past)))
        → starts ≡ due_after (mark ∷ past) }
    ensures keeps { (past : List HookMark) (mark : HookMark) → IsLawful past → MayFollow past mark
        → HookLaw 0 (reverse (due_after (mark ∷ past) ++ mark ∷ past))
        × Settled (reverse (due_after (mark ∷ past) ++ mark ∷ past)) (is_some (open_in (mark ∷ past))) }
{}

/// What is given to the openings as arguments counts for the openings so far alone: whoever gives other arguments to
/// later ones says the same of these.
pub fn given_so_far()
    ensures args { (given other : ℕ → HookArgs) (facts : HookFacts) (past : List HookMark) → StandsFor facts past
        → ((n : ℕ) → n ≤ greatest_in past → given n ≡ other n) → HasArgs given facts → HasArgs other facts }
    ensures words { (target : HookTarget) (given other : ℕ → HookArgs) (past : List HookMark) → IsLawful past
        → ((n : ℕ) → n ≤ greatest_in past → given n ≡ other n) → words_in target given past ≡ words_in target other past }
    ensures ran { (target : HookTarget) (given other : ℕ → HookArgs) (past : List HookMark) → IsLawful past
        → ((n : ℕ) → n ≤ greatest_in past → given n ≡ other n) → ran_in target given past ≡ ran_in target other past }
{}
