//! What follows from the definitions, for a reader.

ghost use Rattle.std.specs.Prelude.{◌≡◌, ℕ, Bool, Option, List, [], ◌∷◌, ◌++◌, true, false, if◌then◌else◌};
ghost use Rattle.ppp_base.specs.declared.protocol.TheConstants.{IP, MULTILINK, IPCP, LCP, PAP, CHAP};
ghost use Rattle.ppp_packet.specs.declared.agreed.Agreed.{Agreed};
ghost use Rattle.ppp_lcp.specs.Session.{is_agreed};
ghost use Rattle.ppp_link_rules.specs.Phase.{LinkPhase, Networking, Phase, ToLcp, ToTable, ToReject, Discarded, has_pieces, is_of_network};
ghost use Rattle.ppp_base.specs.declared.signal_word.SignalWord.TheVariants.{Term};
ghost use Rattle.ppp_fsm.specs.declared.fsm.Limits.{Limits};
ghost use Rattle.ppp_link_rules.specs.History.{GoesOn, HearsAll, terms_of};
ghost use Rattle.ppp_link_rules.specs.Kept.{CountsKept};
ghost use Rattle.ppp_link_rules.specs.LinkState.{LinkState};
ghost use Rattle.ppp_link_rules.specs.LinkEvent.{Event, Begin, Dialled, Signal};
ghost use Rattle.ppp_lcp.specs.declared.wish.LcpWish.{LcpWish};
ghost use Rattle.ppp_secrets.specs.declared.secrets.SecretsPair.{SecretsPair};
ghost use Rattle.ppp_option_words.specs.LinkValues.{LinkValues};
ghost use Rattle.ppp_link_rules.specs.Facts.{IsSound, MovesBy};
ghost use Rattle.ppp_link_rules.specs.LinkPart.{LinkPart, after, after_if, is_present};
ghost use Rattle.ppp_link_rules.specs.NewLink.{new_link};
ghost use Rattle.ppp_link_rules.specs.Wishes.{IsWish};
ghost use Rattle.ppp_outside.specs.declared.line_in.LineAnswer.{LineAnswer};
ghost use Rattle.ppp_link_rules.specs.Rows.{link_of, nomagic, rx, step, dialled};
ghost use Rattle.ppp_link_rules.specs.WorkedHistory.{asked, begun, stopped};

/// Sessions that stand for what happened since their attempt: one that dials, one whose line has just come, one that was
/// told to stop, and one that heard the peer's request.
pub fn sessions_look_back()
    ensures dials { (limits : Limits) → HearsAll (terms_of (step Begin (link_of limits nomagic))) (step Begin (link_of limits nomagic)) [] }
    ensures goes_on { (limits : Limits) → GoesOn (terms_of (step Begin (link_of limits nomagic))) (step Begin (link_of limits nomagic)) [] (Dialled 1 1 0 true)
        (after (Dialled 1 1 0 true) (step Begin (link_of limits nomagic))) }
    ensures begun { (limits : Limits) → HearsAll (terms_of (step Begin (link_of limits nomagic))) (dialled (link_of limits nomagic)) begun }
    ensures stopped { (limits : Limits) → HearsAll (terms_of (step Begin (link_of limits nomagic))) (step (Signal Term) (dialled (link_of limits nomagic))) stopped }
    ensures asked { (limits : Limits) → HearsAll (terms_of (step Begin (link_of limits nomagic))) (rx 0xc021 (1 ∷ 1 ∷ 0 ∷ 4 ∷ []) (dialled (link_of limits nomagic))) asked }
{}

/// What each event leaves of what the layers above keep: a signal adds one mark of its kind at most, a tick raises the
/// time, no other event does either, and nothing changes what is the link's own for good.
pub fn counts_are_kept()
    ensures { (event : Event) (s : LinkState) → CountsKept event s (after event s) }
{}

/// The table of phase and protocol in sentences: what goes to the table, or is rejected, does so in the network phase
/// alone; LCP is heard in each phase; what wasn't agreed on of authentication is discarded in each.
pub fn the_table_of_phases()
    ensures network { (phase : LinkPhase) (agreed : Option Agreed) (protocol : ℕ) → is_of_network (Phase phase agreed protocol) ≡ true → phase ≡ Networking }
    ensures lcp { (phase : LinkPhase) (agreed : Option Agreed) → Phase phase agreed LCP ≡ ToLcp }
    ensures pap { (phase : LinkPhase) (agreed : Option Agreed) → is_agreed PAP agreed ≡ false → Phase phase agreed PAP ≡ Discarded }
    ensures chap { (phase : LinkPhase) (agreed : Option Agreed) → is_agreed CHAP agreed ≡ false → Phase phase agreed CHAP ≡ Discarded }
    ensures datagrams { (agreed : Option Agreed) → (Phase Networking agreed IP ≡ ToTable) × (Phase Networking agreed IPCP ≡ ToTable) }
    ensures pieces { (agreed : Option Agreed) → Phase Networking agreed MULTILINK ≡ (if has_pieces agreed then ToTable else ToReject) }
{}

/// A link that has just been made is what a link is between two steps, and it begins by Begin.
pub fn links_are_sound()
    ensures new { (id seed limit : ℕ) (config : LinkValues) (wish : LcpWish) (secrets : SecretsPair) → IsWish config wish → IsSound (new_link id config wish secrets seed limit) }
    ensures begins { (limits : Limits) → MovesBy Begin (link_of limits nomagic) (after Begin (link_of limits nomagic)) }
{}

/// The rules leave no choice: of each event there is one outcome.
pub fn one_outcome()
    ensures some { (old : LinkState) (event : Event) → LinkPart old event (after_if (is_present event old) event old) (is_present event old) }
    ensures one { (old new other : LinkState) (event : Event) (taken also : Bool) → LinkPart old event new taken → LinkPart old event other also → (new ≡ other) × (taken ≡ also) }
{}
