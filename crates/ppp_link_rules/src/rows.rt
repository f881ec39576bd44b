//! Worked lives of a link, by the definitions alone.

ghost use Rattle.std.specs.Prelude.{◌≡◌, ℕ, true, false, None, Some, [], ◌∷◌, ◌++◌, replicate};
ghost use Rattle.ppp_base.specs.declared.signal_word.SignalWord.TheVariants.{Hup, Term};
ghost use Rattle.ppp_fsm.specs.declared.fsm.Limits.{Limits};
ghost use Rattle.ppp_hdlc.specs.Encoding.{encoding};
ghost use Rattle.ppp_link_rules.specs.Sending.{plain_settings};
ghost use Rattle.ppp_mark.specs.Marks.{mark};
ghost use Rattle.ppp_link_rules.specs.declared.errand.ReadEnd.TheVariants.{End};
ghost use Rattle.ppp_link_rules.specs.declared.errand.SentEnd.TheVariants.{All};
ghost use Rattle.ppp_link_rules.specs.FrameCounts.{no_counts};
ghost use Rattle.ppp_link_rules.specs.LinkEvent.{Begin, Dialled, LineOver, Flushed, Signal, Tick};
ghost use Rattle.ppp_link_rules.specs.CauseStatus.{StatusOf};
ghost use Rattle.ppp_link_rules.specs.Errands.{octets_given, with_post_taken};
ghost use Rattle.ppp_link_rules.specs.Rows.{aborts_at_once, comes, asking_link, proved, reopened, script_ends, fails, link_of, marks, nomagic, opened, run, rx, step, usual, dialled, writing_taken, written};

/// The dial fails, with a signal to stop before it and without one.
pub fn a_dial_that_fails()
    ensures alone { (limits : Limits) → marks (run (Begin ∷ Dialled 1 1 0 false ∷ []) (link_of limits usual))
        ≡ mark 0 1 0 0 1 ∷ mark 0 15 1 0 1 ∷ mark 0 16 0 0 1 ∷ mark 0 19 7 0 0 ∷ [] }
    ensures stopped { (limits : Limits) → marks (run (Begin ∷ Signal Term ∷ Dialled 1 1 0 true ∷ []) (link_of limits usual))
        ≡ mark 0 1 0 0 1 ∷ mark 0 14 3 0 0 ∷ mark 0 15 11 3 1 ∷ mark 0 16 0 0 1 ∷ mark 0 19 5 0 0 ∷ [] }
    ensures status { (limits : Limits) → StatusOf (run (Begin ∷ Dialled 1 1 0 false ∷ []) (link_of limits usual)).log.past ≡ Some 7 }
    ensures before { (limits : Limits) → marks (run (Signal Term ∷ Begin ∷ []) (link_of limits usual)) ≡ mark 0 14 3 0 0 ∷ mark 0 19 5 0 0 ∷ [] }
{}

/// The line comes, and ends.
pub fn a_line_that_ends()
    ensures came { (limits : Limits) → marks (run (Begin ∷ Dialled 1 1 0 true ∷ []) (link_of limits nomagic)) ≡ mark 0 1 0 0 1 ∷ mark 0 2 0 0 1 ∷ [] }
    ensures ended { (limits : Limits) → marks (run (LineOver 1 1 End ∷ []) (step (Flushed 1 1 All) (writing_taken (run (Begin ∷ Dialled 1 1 0 true ∷ []) (link_of limits nomagic)))))
        ≡ mark 0 1 0 0 1 ∷ mark 0 2 0 0 1 ∷ mark 0 15 10 0 1 ∷ mark 0 16 0 0 1 ∷ mark 0 19 16 0 0 ∷ [] }
{}

/// What LCP's first request is on the line.
pub fn a_first_request()
    ensures { (limits : Limits) → octets_given (dialled (link_of limits nomagic))
        ≡ 0x7e ∷ 0xff ∷ 0x7d ∷ 0x23 ∷ 0xc0 ∷ 0x21 ∷ 0x7d ∷ 0x21 ∷ 0x7d ∷ 0x21 ∷ 0x7d ∷ 0x20 ∷ 0x7d ∷ 0x2e ∷ 0x7d ∷ 0x22 ∷ 0x7d ∷ 0x26 ∷ 0x7d ∷ 0x20 ∷ 0x7d ∷ 0x20
        ∷ 0x7d ∷ 0x20 ∷ 0x7d ∷ 0x20 ∷ 0x7d ∷ 0x27 ∷ 0x7d ∷ 0x22 ∷ 0x7d ∷ 0x28 ∷ 0x7d ∷ 0x22 ∷ 0x70 ∷ 0x34 ∷ 0x7e ∷ [] }
{}

/// In the network phase a frame of a protocol that isn't known is rejected, with the second identifier.
pub fn a_protocol_that_is_rejected()
    ensures phase { (limits : Limits) → marks (opened (link_of limits nomagic)) ≡ mark 0 1 0 0 1 ∷ mark 0 2 0 0 1 ∷ mark 0 3 0 0 1 ∷ mark 0 9 0 0 1 ∷ [] }
    ensures asks { (limits : Limits) → (with_post_taken (opened (link_of limits nomagic))).up.waiting ≡ [] }
    ensures sent { (limits : Limits) → (rx 0x80fd (1 ∷ 1 ∷ 0 ∷ 4 ∷ []) (written (opened (link_of limits nomagic)))).out.waiting
        ≡ encoding plain_settings 0xc021 (8 ∷ 2 ∷ 0 ∷ 10 ∷ 0x80 ∷ 0xfd ∷ 1 ∷ 1 ∷ 0 ∷ 4 ∷ []) }
{}

/// `persist`, `maxfail 2`, `holdoff 30`, and a chat that aborts at once: the second attempt begins when the hold ends, or at a hang-up.
pub fn two_failures()
    ensures held { (limits : Limits) → marks (fails 2 (step (Tick 30000) (step (Tick 29999) (fails 1 (step Begin (link_of limits aborts_at_once))))))
        ≡ mark 0 1 0 0 1 ∷ mark 0 2 0 0 1 ∷ mark 0 15 3 1 1 ∷ mark 0 16 0 0 1 ∷ mark 0 17 0 0 30000
        ∷ mark 30000 1 0 0 2 ∷ mark 30000 2 0 0 2 ∷ mark 30000 15 3 1 2 ∷ mark 30000 16 0 0 2 ∷ mark 30000 19 8 0 0 ∷ [] }
    ensures hung_up { (limits : Limits) → marks (step (Signal Hup) (step (Tick 5000) (fails 1 (step Begin (link_of limits aborts_at_once)))))
        ≡ mark 0 1 0 0 1 ∷ mark 0 2 0 0 1 ∷ mark 0 15 3 1 1 ∷ mark 0 16 0 0 1 ∷ mark 0 17 0 0 30000 ∷ mark 5000 14 1 0 0 ∷ mark 5000 1 0 0 2 ∷ [] }
{}

/// Authentication closes and opens again while auth-up of the first opening runs: nothing is started, and directly behind each end stands what is due.
pub fn an_opening_while_a_script_runs()
    ensures proved { (limits : Limits) → marks (proved 1 (dialled (asking_link limits)))
        ≡ mark 0 1 0 0 1 ∷ mark 0 2 0 0 1 ∷ mark 0 3 0 0 1 ∷ mark 0 5 0 0 1 ∷ mark 0 7 1 0 1 ∷ mark 0 9 0 0 1 ∷ [] }
    ensures lives { (limits : Limits) → marks (script_ends 2 (script_ends 1 (reopened limits)))
        ≡ mark 0 1 0 0 1 ∷ mark 0 2 0 0 1 ∷ mark 0 3 0 0 1 ∷ mark 0 5 0 0 1 ∷ mark 0 7 1 0 1 ∷ mark 0 9 0 0 1
        ∷ mark 0 4 0 0 1 ∷ mark 0 6 0 0 1 ∷ mark 0 10 0 0 1
        ∷ mark 0 3 0 0 2 ∷ mark 0 5 0 0 2
        ∷ mark 0 8 0 0 1 ∷ mark 0 7 2 0 1 ∷ mark 0 8 0 0 2 ∷ mark 0 7 1 0 2 ∷ [] }
{}

/// More octets than a frame has, and flags alone.
pub fn octets_that_are_no_frames()
    ensures flags { (limits : Limits) → (comes (replicate 1024 0x7e) (dialled (link_of limits nomagic))).counts ≡ no_counts }
    ensures long { (limits : Limits) → (comes (replicate 509 0x41 ++ 0x7e ∷ []) (comes (0x7e ∷ replicate 1000 0x41) (dialled (link_of limits nomagic)))).counts
        ≡ record no_counts { too_long = 1 } }
    ensures flag_marks { (limits : Limits) → marks (comes (replicate 1024 0x7e) (dialled (link_of limits nomagic))) ≡ mark 0 1 0 0 1 ∷ mark 0 2 0 0 1 ∷ [] }
{}
