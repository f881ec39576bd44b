// Laws of the definitions that the contracts cite.
ghost use Rattle.std.specs.Prelude.{◌≡◌, ◌↔◌, ℕ, [], ◌∷◌, List, map, codes, true};
ghost use Rattle.ppp_base.specs.declared.hook_target.HookTarget.TheVariants.{Link, Unit as OfUnit};
ghost use Rattle.ppp_base.specs.declared.signal_word.SignalWord.TheVariants.{Term};
ghost use Rattle.ppp_outside.specs.declared.spawner.ScriptEnd.TheVariants.{Exit};
ghost use Rattle.ppp_mark.specs.declared.mark.Mark.{Mark};
ghost use Rattle.ppp_mark.specs.Log.{no_marks};
ghost use Rattle.ppp_mark.specs.Marks.{address_number, mark, signal_mark};
ghost use Rattle.ppp_mark.specs.ScriptLog.{log_closed, log_ended, log_opened};
ghost use Rattle.ppp_mark.specs.Scripts.{LogLaw, MayStandMark, said_in};
ghost use Rattle.ppp_mark.specs.Table.{names_differ, table};

/// The table has these numbers and names, and no name stands twice.
pub fn table_of_marks()
    ensures kinds { map (λ r. r.kind) table ≡ 1 ∷ 2 ∷ 3 ∷ 4 ∷ 5 ∷ 6 ∷ 7 ∷ 8 ∷ 9 ∷ 10 ∷ 11 ∷ 12 ∷ 13 ∷ 14 ∷ 15 ∷ 16 ∷ 17 ∷ 18 ∷ 19
        ∷ 32 ∷ 33 ∷ 34 ∷ 35 ∷ 36 ∷ 37 ∷ 38 ∷ 39 ∷ 40 ∷ [] }
    ensures names { map (λ r. r.name) table ≡ codes "attempt" ∷ codes "line" ∷ codes "lcp-open" ∷ codes "lcp-closed" ∷ codes "auth-open" ∷ codes "auth-closed"
        ∷ codes "start" ∷ codes "ended" ∷ codes "asked" ∷ codes "left" ∷ codes "member" ∷ codes "live" ∷ codes "refused" ∷ codes "signal" ∷ codes "cause"
        ∷ codes "over" ∷ codes "hold" ∷ codes "wait" ∷ codes "finished" ∷ codes "made" ∷ codes "in" ∷ codes "out" ∷ codes "ip-open" ∷ codes "local"
        ∷ codes "remote" ∷ codes "ip-closed" ∷ codes "close" ∷ codes "unmade" ∷ [] }
    ensures differ { names_differ table ≡ true }
    ensures address { address_number (10 ∷ 0 ∷ 0 ∷ 1 ∷ []) ≡ 167772161 }
    ensures signal { signal_mark 0 Term ≡ mark 0 14 3 0 0 }
{}

/// The law of site scripts can be decided mark by mark: one more mark keeps it exactly where it holds before and the
/// mark may stand there. A start that is neither up nor down may stand nowhere. The newest mark comes first.
pub fn one_more_mark()
    ensures { (b : ℕ) (past : List Mark) (m : Mark) → LogLaw b (m ∷ past) ↔ (LogLaw b past × MayStandMark b (said_in past) m) }
{}

/// The life of a unit's scripts: IP opens, ip-up ends, IP closes, ip-down ends. Each start stands directly behind its
/// cause.
pub fn a_life()
    ensures of_unit { (log_ended 8 (Exit 0) (log_closed (OfUnit 0) 7 (log_ended 6 (Exit 0) (log_opened (OfUnit 0) 5 (no_marks 100))))).past
        ≡ mark 8 8 0 0 2 ∷ mark 7 7 2 0 1 ∷ mark 7 38 0 0 1 ∷ mark 6 8 0 0 1 ∷ mark 5 7 1 0 1 ∷ mark 5 35 0 0 1 ∷ [] }
    ensures of_link { (log_opened (Link 1) 5 (no_marks 100)).past ≡ mark 5 7 1 0 1 ∷ mark 5 5 0 0 1 ∷ [] }
{}

/// The law of site scripts holds of that life, and some starts and ends it refuses: a start that is neither up nor down,
/// the end of another job, a down for another opening, a second start before the end of the first. The newest mark comes
/// first.
pub fn what_the_law_says()
    ensures life { LogLaw 0 (mark 8 8 0 0 2 ∷ mark 7 7 2 0 1 ∷ mark 7 38 0 0 1 ∷ mark 6 8 0 0 1 ∷ mark 5 7 1 0 1 ∷ mark 5 35 0 0 1 ∷ []) }
    ensures direction { LogLaw 0 (mark 5 7 3 0 1 ∷ mark 5 35 0 0 1 ∷ []) → ⊥ }
    ensures job { LogLaw 0 (mark 6 8 0 0 2 ∷ mark 5 7 1 0 1 ∷ mark 5 35 0 0 1 ∷ []) → ⊥ }
    ensures opening { LogLaw 0 (mark 7 7 2 0 2 ∷ mark 7 38 0 0 1 ∷ mark 6 8 0 0 1 ∷ mark 5 7 1 0 1 ∷ mark 5 35 0 0 1 ∷ []) → ⊥ }
    ensures second { LogLaw 0 (mark 5 7 1 0 1 ∷ mark 5 7 1 0 1 ∷ mark 5 35 0 0 1 ∷ []) → ⊥ }
{}
