//! Worked sessions: that they are lawful follows from the definitions alone.

ghost use Rattle.std.specs.Prelude.{◌≡◌, ℕ, None, Some, List, [], ◌∷◌, false, true};
ghost use Rattle.ppp_timer.specs.Due.{has_come};
ghost use Rattle.ppp_packet.specs.OptionsOf.{item};
ghost use Rattle.ppp_control.specs.declared.judging.Verdict.TheVariants.{Nak};
ghost use Rattle.ppp_lcp.specs.declared.wish.LcpWish.{LcpWish};
ghost use Rattle.ppp_fsm.specs.declared.fsm.Limits.{Limits};
ghost use Rattle.ppp_control.specs.Rules.{AllLawful, aside, event_in, hears, ticks};
ghost use Rattle.ppp_lcp.specs.Last.{agreed_by};
ghost use Rattle.ppp_lcp.specs.Verdict.{verdict_to};
ghost use Rattle.ppp_lcp.specs.Rows.{usual, first_words, begun, agreed, repeated, refused, lived, looped, unlooped, echoed, replied, numbered, AllAnswered, by_table, in_order, times, chap};
ghost use Rattle.ppp_control.specs.OwnPackets.{packet};
ghost use Rattle.ppp_control.specs.Past.{next_id_after};
ghost use Rattle.ppp_lcp.specs.Session.{rules, LcpCall, deadline_after, in_a_row, is_needed, lost_at, network_refused_at, own_requests};

/// The default request, sent again by a timeout after three seconds and not before.
pub fn asks_again()
    ensures { (limits : Limits) → limits.configure ≡ 10 → AllLawful (rules (usual limits) first_words) repeated }
{}

/// An option that isn't known is rejected, an MRU of 64 is named 128, and two codes that aren't known have a Code-Reject each.
pub fn refuses()
    ensures { (limits : Limits) → AllLawful (rules (usual limits) first_words) refused }
{}

/// From the peer's request to its end: our request asks for the MRU that a Nak named, an Ack of other options is discarded, an echo is due after
/// thirty seconds, the reply to the peer's has our number, and the timer runs out once more behind its end.
pub fn lives()
    ensures { (limits : Limits) → AllLawful (rules (usual limits) first_words) lived }
{}

/// A request with our own number is a loop as long as that number is ours, and each is counted until another comes; after a Nak we ask for a new number, and
/// after a Reject for none.
pub fn numbers()
    ensures lawful { (limits : Limits) → AllLawful (rules (usual limits) first_words) unlooped }
    ensures loops { (limits : Limits) → in_a_row (own_requests (usual limits) first_words looped) ≡ 2 }
    ensures none { (limits : Limits) → in_a_row (own_requests (usual limits) first_words unlooped) ≡ 0 }
{}

/// As many echoes as may be have gone unanswered: the tick at which the next one is due finds it, and not the one before. A reply with another number than
/// ours answers them.
pub fn silences()
    ensures lawful { (limits : Limits) → AllLawful (rules (usual limits) first_words) (replied (0 ∷ 0 ∷ 0 ∷ 7 ∷ [])) }
    ensures before { (limits : Limits) → lost_at ticks None (usual limits) first_words echoed 60001 ≡ 0 }
    ensures found { (limits : Limits) → lost_at ticks None (usual limits) first_words echoed 60002 ≡ 1 }
    ensures own { (limits : Limits) → lost_at ticks None (usual limits) first_words (replied (0x11 ∷ 0x22 ∷ 0x33 ∷ 0x44 ∷ [])) 60002 ≡ 1 }
    ensures answered { (limits : Limits) → lost_at ticks None (usual limits) first_words (replied (0 ∷ 0 ∷ 0 ∷ 7 ∷ [])) 60002 ≡ 0 }
{}

/// The link can't do without IPCP, multilink and the method that was agreed on; and it can without any other protocol.
pub fn refusals()
    ensures ipcp { (limits : Limits) → network_refused_at (hears (packet 8 1 (0x80 ∷ 0x21 ∷ [])) tt) (usual limits) begun ≡ Some 0x8021 }
    ensures multilink { (limits : Limits) → network_refused_at (hears (packet 8 1 (0x00 ∷ 0x3d ∷ [])) tt) (usual limits) agreed ≡ Some 0x003d }
    ensures other { (limits : Limits) → network_refused_at (hears (packet 8 1 (0x80 ∷ 0xfd ∷ [])) tt) (usual limits) agreed ≡ None }
    ensures unagreed { (limits : Limits) → network_refused_at (hears (packet 8 1 (0xc2 ∷ 0x23 ∷ [])) tt) (usual limits) agreed ≡ None }
    ensures method { is_needed 0xc223 (Some (agreed_by (item 3 chap ∷ []) [])) ≡ true }
    ensures another { is_needed 0xc023 (Some (agreed_by (item 3 chap ∷ []) [])) ≡ false }
{}

/// The identifiers begin at 1, and 255 is followed by 0.
pub fn identifiers()
    ensures first { next_id_after [] ≡ 1 }
    ensures last { next_id_after (numbered 254) ≡ 255 }
    ensures again { next_id_after (numbered 255) ≡ 0 }
{}

/// The answers to requests, line by line of the table, and in their order.
pub fn answers()
    ensures table { (limits : Limits) → AllAnswered (by_table limits) }
    ensures order { (limits : Limits) → AllAnswered (in_order limits) }
    ensures cut { (limits : Limits) → verdict_to (times 376 (item 3 (0xc0 ∷ 0x24 ∷ []))) (usual limits) 5 9 0 ≡ Nak (times 300 (item 3 chap)) }
{}

/// Of two options of one type the later holds. A peer's MRU above 1500 counts as 1500, and what is left out has its default.
pub fn agrees()
    ensures later { (agreed_by [] (item 1 (5 ∷ 0 ∷ []) ∷ item 1 (4 ∷ 0 ∷ []) ∷ [])).peer_mru ≡ 1024 }
    ensures above { (agreed_by [] (item 1 (6 ∷ 0 ∷ []) ∷ [])).peer_mru ≡ 1500 }
    ensures default { (agreed_by [] []).peer_mru ≡ 1500 }
{}

/// Before the one timer that runs is due, a tick is no event and sends nothing.
pub fn nothing_before_the_deadline()
    ensures { (wish : LcpWish) (words : ℕ) (past : List LcpCall) (now : ℕ) → has_come now (deadline_after wish past) ≡ false
        → (event_in (rules wish words) past now ticks ≡ None) × (aside (rules wish words) past now ticks ≡ []) }
{}
