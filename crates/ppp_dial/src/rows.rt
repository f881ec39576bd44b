// Worked lists of calls, by the definitions alone. The newest call comes first.
ghost use Rattle.std.specs.Prelude.{[], ◌∷◌, true, false};
ghost use Rattle.ppp_dial.specs.Happened.{happened};
ghost use Rattle.ppp_dial.specs.Rows.{IsRow, at, failed, idle, idle_failure, left, policy};
ghost use Rattle.ppp_dial.specs.declared.call.CallKind.TheVariants.{Start, Wake, Hup, Tick, Stop};
ghost use Rattle.ppp_dial.specs.declared.now.DialNow.TheVariants.{Nothing, Begin, Hold, Wait, Finish};

/// `persist`, `holdoff 30`, `maxfail 2`, and each session fails with status 8.
pub fn two_failures()
    ensures { IsRow (policy true false 30 2) (at 30000 (failed 8) (Finish 8) ∷ at 30000 Tick Begin ∷ at 29999 Tick Nothing
        ∷ at 0 (failed 8) (Hold 30000) ∷ at 0 Start Begin ∷ []) }
{}

/// The same, with a hang-up in the hold.
pub fn a_hang_up_in_a_hold()
    ensures { IsRow (policy true false 30 2) (at 5000 Hup Begin ∷ at 0 (failed 8) (Hold 30000) ∷ at 0 Start Begin ∷ []) }
{}

/// After an idle end there is no hold, be it a failure or not, and after each other end there is one. The limit comes before.
pub fn ends_and_holds()
    ensures idle { IsRow (policy true false 30 2) (at 70000 idle Begin ∷ at 0 Start Begin ∷ []) }
    ensures idle_failure { IsRow (policy true false 30 2) (at 70000 idle_failure Begin ∷ at 0 Start Begin ∷ []) }
    ensures last_failure { IsRow (policy true false 30 1) (at 70000 idle_failure (Finish 12) ∷ at 0 Start Begin ∷ []) }
    ensures live { IsRow (policy true false 30 2) (at 70000 left (Hold 30000) ∷ at 0 Start Begin ∷ []) }
{}

/// An attempt has room of at least 1,024, by whatever call it would begin. A wait needs none.
pub fn the_least_room()
    ensures enough { IsRow (policy true false 30 2) (happened Start 0 1024 Begin ∷ []) }
    ensures at_start { IsRow (policy true false 30 2) (happened Start 0 1023 (Finish 34) ∷ []) }
    ensures at_wake { IsRow (policy true true 30 2) (happened Wake 1 1023 (Finish 34) ∷ happened Start 0 0 Wait ∷ []) }
    ensures at_hup { IsRow (policy true false 30 2) (happened Hup 1 1023 (Finish 34) ∷ at 0 (failed 8) (Hold 30000) ∷ at 0 Start Begin ∷ []) }
    ensures at_tick { IsRow (policy true false 30 2) (happened Tick 30000 1023 (Finish 34) ∷ at 0 (failed 8) (Hold 30000) ∷ at 0 Start Begin ∷ []) }
    ensures at_end { IsRow (policy true false 30 2) (happened idle 9 1023 (Finish 34) ∷ at 0 Start Begin ∷ []) }
    ensures wait { IsRow (policy true true 30 2) (happened Tick 30000 0 Wait ∷ happened (failed 8) 0 0 (Hold 30000) ∷ at 0 Wake Begin ∷ at 0 Start Wait ∷ []) }
{}

/// Under `demand` the link waits at its start, after an idle end, and after a hold.
pub fn a_link_on_demand()
    ensures in_turn { IsRow (policy true true 30 0) (at 60000 Tick Wait ∷ at 30000 (failed 8) (Hold 30000) ∷ at 9000 Wake Begin ∷ at 8000 idle Wait
        ∷ at 1000 Wake Begin ∷ at 0 Start Wait ∷ []) }
    ensures hang_up { IsRow (policy true true 30 0) (at 5000 Hup Wait ∷ at 0 (failed 8) (Hold 30000) ∷ at 0 Wake Begin ∷ at 0 Start Wait ∷ []) }
    ensures no_holdoff { IsRow (policy true true 0 0) (at 5000 (failed 8) Wait ∷ at 0 Wake Begin ∷ at 0 Start Wait ∷ []) }
{}

/// A session that was live ends a row of failures, and `maxfail 0` is no limit.
pub fn failures_in_a_row()
    ensures cleared { IsRow (policy true false 0 2) (at 4 (failed 8) (Finish 8) ∷ at 3 (failed 7) Begin ∷ at 2 left Begin ∷ at 1 (failed 8) Begin ∷ at 0 Start Begin ∷ []) }
    ensures no_limit { IsRow (policy true false 0 0) (at 3 (failed 8) Begin ∷ at 2 (failed 8) Begin ∷ at 1 (failed 8) Begin ∷ at 0 Start Begin ∷ []) }
{}

/// Without `persist` the link finishes with its session.
pub fn one_session()
    ensures failure { IsRow (policy false false 30 0) (at 2 (failed 8) (Finish 8) ∷ at 0 Start Begin ∷ []) }
    ensures idle { IsRow (policy false false 30 0) (at 3 Start Nothing ∷ at 2 idle (Finish 12) ∷ at 0 Start Begin ∷ []) }
{}

/// A stop finishes the link with 5: before its start, in a hold and in a wait at once, while an attempt is under way with its session.
pub fn a_stop()
    ensures before_start { IsRow (policy true false 30 0) (at 1 Start Nothing ∷ at 0 Stop (Finish 5) ∷ []) }
    ensures in_a_hold { IsRow (policy true false 30 0) (at 30001 Tick Nothing ∷ at 0 Stop (Finish 5) ∷ at 1 (failed 8) (Hold 30000) ∷ at 0 Start Begin ∷ []) }
    ensures in_a_wait { IsRow (policy true true 30 0) (at 1 Wake Nothing ∷ at 0 Stop (Finish 5) ∷ at 0 Start Wait ∷ []) }
    ensures in_a_session { IsRow (policy true false 30 0) (at 2 (failed 8) (Finish 5) ∷ at 1 Stop Nothing ∷ at 1 Stop Nothing ∷ at 0 Start Begin ∷ []) }
    ensures without_persist { IsRow (policy false false 30 1) (at 3 Stop Nothing ∷ at 2 (failed 8) (Finish 5) ∷ at 1 Stop Nothing ∷ at 0 Start Begin ∷ []) }
{}

/// Calls that are passed over.
pub fn passed_over()
    ensures before_start { IsRow (policy true false 30 0) (at 0 Tick Nothing ∷ at 0 Hup Nothing ∷ at 0 Wake Nothing ∷ []) }
    ensures under_way { IsRow (policy true false 30 0) (at 1 Tick Nothing ∷ at 1 Hup Nothing ∷ at 1 Wake Nothing ∷ at 1 Start Nothing ∷ at 0 Start Begin ∷ []) }
    ensures in_a_hold { IsRow (policy true false 30 0) (at 2 Tick Nothing ∷ at 2 Wake Nothing ∷ at 2 Start Nothing ∷ at 1 (failed 8) (Hold 30000) ∷ at 0 Start Begin ∷ []) }
    ensures in_a_wait { IsRow (policy true true 30 0) (at 9 Tick Nothing ∷ at 9 Hup Nothing ∷ at 9 Start Nothing ∷ at 0 Start Wait ∷ []) }
    ensures at_the_end { IsRow (policy true false 30 0) (at 9 Stop Nothing ∷ at 9 Tick Nothing ∷ at 9 Hup Nothing ∷ at 9 Wake Nothing ∷ at 9 Start Nothing ∷ at 0 Stop (Finish 5) ∷ []) }
{}
