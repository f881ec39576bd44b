//! What follows from the table, for a reader and for the layers above.

ghost use Rattle.std.specs.Prelude.{◌≡◌, ℕ, ◌==◌, ◌<◌, ◌≤◌, ◌&&◌, ◌||◌, Bool, true, nat_lt};
ghost use Rattle.ppp_fsm.specs.Acts.{has};
ghost use Rattle.ppp_fsm.specs.Fsm.{Automaton, Entry, never, entry_of, acts_of, after};
ghost use Rattle.ppp_fsm.specs.Moving.{is_shut, is_open_event, may_begin};
ghost use Rattle.ppp_fsm.specs.Opening.{OpensByActs};
ghost use Rattle.ppp_fsm.specs.TableTest.{table_passes, is_terminate};
ghost use Rattle.ppp_fsm.specs.declared.acts.Act.TheVariants.{Zrc};
ghost use Rattle.ppp_fsm.specs.declared.event.FsmEvent.{FsmEvent};
ghost use Rattle.ppp_fsm.specs.declared.event.FsmEvent.TheVariants.{Close};

/// What a test says of each entry of the table, it says of each event in each state. Past state 9 no event occurs.
pub fn each_entry()
    ensures { (test : FsmEvent → ℕ → Entry → Bool) → table_passes test ≡ true
        → ((event : FsmEvent) (state : ℕ) → 9 < state → test event state never ≡ true)
        → (a : Automaton) (event : FsmEvent) → test event a.state (entry_of a event) ≡ true }
{}

/// This-Layer-Up comes exactly as Opened is entered and This-Layer-Down exactly as it is left, each once.
pub fn opened_is_open()
    ensures { (a : Automaton) (event : FsmEvent) → OpensByActs a event }
{}

/// The restart counter is zeroed by a Terminate-Request in Opened alone.
pub fn terminated_in_opened()
    ensures { (a : Automaton) (event : FsmEvent) → has Zrc (acts_of a event) ≡ (is_terminate event && a.state == 9) }
{}

/// There are ten states.
pub fn ten_states()
    ensures { (a : Automaton) (event : FsmEvent) → a.state ≤ 9 → (after a event).state ≤ 9 }
{}

/// Close leaves Opened, and each other state in which the layer is wanted: behind it the state is Initial, Closed or Closing.
pub fn close_shuts()
    ensures { (a : Automaton) → a.state ≤ 9 → is_shut (after a Close).state ≡ true }
{}

/// In these three the automaton stays until Open.
pub fn shut_until_open()
    ensures { (a : Automaton) (event : FsmEvent) → is_shut a.state ≡ true → (is_open_event event || is_shut (after a event).state) ≡ true }
{}

/// From the states 0 to 3 just these lead upwards: Up in Starting, Open in Closed, and a Configure-Request in Stopped.
pub fn only_these_begin()
    ensures { (a : Automaton) (event : FsmEvent) → a.state ≤ 3 → nat_lt 3 (after a event).state ≡ may_begin event a.state }
{}
