//! What follows from the definitions, for a reader.

ghost use Rattle.std.specs.Prelude.{◌≡◌, ℕ, List, ◌++◌, true, false};
ghost use Rattle.ppp_outside.specs.declared.line_in.LineAnswer.{LineAnswer};
ghost use Rattle.ppp_link_rules.specs.declared.errand.Errand.TheVariants.{Waiting};
ghost use Rattle.ppp_link_rules.specs.declared.errand.ReadEnd.{ReadEnd};
ghost use Rattle.ppp_link_rules.specs.declared.errand.SentEnd.{SentEnd};
ghost use Rattle.ppp_link_rules.specs.LinkEvent.{Event, Dialled, LineOver, Flushed};
ghost use Rattle.ppp_link_rules.specs.LinkPart.{after};
ghost use Rattle.ppp_link_rules.specs.LinkState.{LinkState};
ghost use Rattle.ppp_link_rules.specs.Sessions.{with_failure};
ghost use Rattle.ppp_link.specs.Between.{Moves, brings_nothing};
ghost use Rattle.ppp_link.specs.ErrandValues.{PieceValue};
ghost use Rattle.ppp_link.specs.OneLine.{AreOfLine, given_by, taken_of};

/// Of pieces of one line, each with its place, what is taken at its place alone is a front of what the line gave: its
/// octets in order, each once.
pub fn a_front_of_the_line()
    ensures { (answers : List LineAnswer) (pieces : List PieceValue) → AreOfLine (given_by answers) pieces
        → (rest : List ℕ) × (given_by answers ≡ taken_of 0 pieces ++ rest) }
{}

/// No event loses the object of an errand: what no object comes back with leaves the dial in or out, and what waits of the
/// line has waited before; where an object comes back, the same is so from the state in which its errand is in.
pub fn no_object_is_lost()
    ensures none { (event : Event) (s : LinkState) → brings_nothing event ≡ true → Moves s (after event s) }
    ensures read { (link session : ℕ) (how : ReadEnd) (s : LinkState) → Moves (record s { reading = Waiting }) (after (LineOver link session how) s) }
    ensures written { (link session : ℕ) (how : SentEnd) (s : LinkState) → Moves (record s { writing = Waiting }) (after (Flushed link session how) s) }
    ensures failed { (link session failed : ℕ) (s : LinkState) → Moves (with_failure s) (after (Dialled link session failed false) s) }
{}
