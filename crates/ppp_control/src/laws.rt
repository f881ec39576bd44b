ghost use Rattle.std.specs.Prelude.{◌≡◌, if◌then◌else◌, ℕ, Bool, [], ◌∷◌, List, Some, None};
ghost use Rattle.ppp_fsm.specs.declared.event.FsmEvent.{FsmEvent};
ghost use Rattle.ppp_fsm.specs.Fsm.{acts_of};
ghost use Rattle.ppp_packet.specs.declared.packet.Packet.{Packet};
ghost use Rattle.ppp_control.specs.declared.negotiation.Negotiation.{Negotiation};
ghost use Rattle.ppp_control.specs.Given.{Given};
ghost use Rattle.ppp_control.specs.OwnPackets.{packet};
ghost use Rattle.ppp_control.specs.Start.{started, agreement};
ghost use Rattle.ppp_control.specs.Step.{stepped, step_sends, next_of};
ghost use Rattle.ppp_control.specs.Past.{agreement_after};
ghost use Rattle.ppp_control.specs.Rules.{happened_in, Rules, Call, hears, Called, IsLawful, Negotiates, aside, event_in, comes_with};
ghost use Rattle.ppp_control.specs.Answering.{AllAnswer};

/// A negotiation begins with no calls.
pub fn nothing_has_happened<A>()
    ensures { (r : Rules A) → Negotiates r (started r.limits r.restart_ms r.is_lcp) [] }
{}

/// A step by the event that looking back says, with what looking back says that it comes with, leaves what looking back says, and is lawful.
pub fn steps_look_back<A>()
    ensures { (r : Rules A) (past : List (Called A)) (n : Negotiation) (now : ℕ) (call : Call A) (event : FsmEvent) (g : Given) → Negotiates r n past → event_in r past now call ≡ Some event → g ≡ comes_with r past now event call
        → Negotiates r (stepped g event n) (record { call = call; happened = record { now = now; event = Some event; acts = acts_of n.fsm event; packets = step_sends g event n } } ∷ past) }
{}

/// A call that is no event leaves all as it was, but that an Echo-Request 9 or a Protocol-Reject 8 takes the next identifier.
pub fn calls_without_event_look_back<A>()
    ensures nothing { (r : Rules A) (past : List (Called A)) (n : Negotiation) (now : ℕ) (call : Call A) → Negotiates r n past → event_in r past now call ≡ None → aside r past now call ≡ []
        → Negotiates r n (record { call = call; happened = record { now = now; event = None; acts = []; packets = [] } } ∷ past) }
    ensures numbered { (r : Rules A) (past : List (Called A)) (n : Negotiation) (now : ℕ) (call : Call A) (is_echo : Bool) (body : List ℕ) → Negotiates r n past → event_in r past now call ≡ None
        → aside r past now call ≡ packet (if is_echo then 9 else 8) n.next_id body ∷ []
        → Negotiates r (record n { next_id = next_of n.next_id }) (record { call = call; happened = record { now = now; event = None; acts = []; packets = packet (if is_echo then 9 else 8) n.next_id body ∷ [] } } ∷ past) }
{}

/// What both ends acknowledged is what the negotiation has.
pub fn both_acknowledged<A>()
    ensures { (r : Rules A) (past : List (Called A)) (n : Negotiation) → Negotiates r n past → agreement n ≡ agreement_after r.limits (happened_in past) }
{}

/// Of the packets that a call sends, each answer has the identifier of the packet that was heard, an Ack its data too, and a Code-Reject its octets.
pub fn answers_are_of_what_was_heard<A>()
    ensures { (r : Rules A) (past : List (Called A)) (c : Called A) (p : Packet) (a : A) → c.call ≡ hears p a → IsLawful r c past → AllAnswer p c.happened.packets }
{}
