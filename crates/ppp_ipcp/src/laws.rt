//! What follows from the definitions alone: which address the peer has, and that worked sessions are lawful.

ghost use Rattle.std.specs.Prelude.{◌≡◌, ◌↔◌, ℕ, Some, None, List, [], ◌∷◌, false};
ghost use Rattle.ppp_base.specs.declared.allow.Allow.{Allow};
ghost use Rattle.ppp_packet.specs.OptionsOf.{Item};
ghost use Rattle.ppp_secrets.specs.declared.secrets.SecretsPair.{SecretsPair};
ghost use Rattle.ppp_control.specs.Answers.{acks, names};
ghost use Rattle.ppp_ipcp.specs.declared.addresses.Addresses.{Addresses};
ghost use Rattle.ppp_ipcp.specs.declared.wish.IpWish.{IpWish};
ghost use Rattle.ppp_ipcp.specs.Address.{judged_where};
ghost use Rattle.ppp_ipcp.specs.MayHave.{MayHave, IsAddress, AllWith, HasWhatItMay};
ghost use Rattle.ppp_fsm.specs.declared.fsm.Limits.{Limits};
ghost use Rattle.ppp_control.specs.Rules.{AllLawful, aside, event_in, ticks};
ghost use Rattle.ppp_timer.specs.Due.{has_come};
ghost use Rattle.ppp_base.specs.declared.allow.Allow.TheVariants.{Pap};
ghost use Rattle.ppp_ipcp.specs.Rows.{pair, fixed, named_by_peer, other_remote, repeated, answered, cut, allowed_by_lines, others, kept, acked_by_us, opened, ended};
ghost use Rattle.ppp_ipcp.specs.Session.{IpcpCall, ip_rules, agreed_after, deadline_after};

/// An option is acknowledged exactly where it is an address that the peer may have; the wished address is named exactly for an address
/// that it may not have; every other option is rejected.
pub fn judged_by_what_it_may_have()
    ensures acked { (wish : IpWish) (allow : Allow) (secrets : SecretsPair) (i : Item) →
        (judged_where wish allow secrets i ≡ acks) ↔ (IsAddress i × MayHave wish allow secrets i.body) }
    ensures named { (wish : IpWish) (allow : Allow) (secrets : SecretsPair) (i : Item) (address : List ℕ) →
        (judged_where wish allow secrets i ≡ names address) ↔ (IsAddress i × (MayHave wish allow secrets i.body → ⊥) × (wish.remote ≡ Some address)) }
{}

/// In Opened the peer has an address that it may have, where each packet was heard with these secrets and this line; or its request
/// named none.
pub fn the_peer_has_what_it_may()
    ensures { (wish : IpWish) (allow : Allow) (secrets : SecretsPair) (past : List IpcpCall) (both : Addresses) →
        AllLawful (ip_rules wish) past → AllWith allow secrets past → agreed_after wish past ≡ Some both → HasWhatItMay wish allow secrets both.remote }
{}

/// Before the restart timer is due, a tick is no event; and such a tick sends nothing.
pub fn nothing_before_the_deadline()
    ensures { (wish : IpWish) (past : List IpcpCall) (now : ℕ) → has_come now (deadline_after wish past) ≡ false
        → (event_in (ip_rules wish) past now ticks ≡ None) × (aside (ip_rules wish) past now ticks ≡ []) }
{}

/// The first request, sent again by a timeout after three seconds and not before.
pub fn asks_again()
    ensures { (limits : Limits) → limits.configure ≡ 10 → AllLawful (ip_rules (fixed limits)) repeated }
{}

/// The answers to requests where one address is wished, and to codes that aren't known.
pub fn names_the_wished_address()
    ensures rows { (limits : Limits) → AllLawful (ip_rules (fixed limits)) answered }
    ensures cut { (limits : Limits) → AllLawful (ip_rules (fixed limits)) cut }
{}

/// The answers where no address is wished, by the lines of PAP's and of CHAP's secrets.
pub fn allows_by_lines()
    ensures { (limits : Limits) → AllLawful (ip_rules (named_by_peer limits)) allowed_by_lines }
{}

/// The answers where the peer may take another address, with one Nak in a row.
pub fn takes_another_address()
    ensures { (limits : Limits) → AllLawful (ip_rules (other_remote limits)) others }
{}

/// A fixed address of ours, named otherwise and then rejected: it is ours in Opened, and the peer has the wished one.
pub fn keeps_our_address()
    ensures lawful { (limits : Limits) → AllLawful (ip_rules (fixed limits)) kept }
    ensures agreed { (limits : Limits) → agreed_after (fixed limits) kept ≡ Some (record { local = 10 ∷ 0 ∷ 0 ∷ 1 ∷ []; remote = 10 ∷ 0 ∷ 0 ∷ 2 ∷ [] }) }
{}

/// A life with addresses that the peer names: nothing is agreed on in Ack-Sent, nor behind the end.
pub fn lives()
    ensures lawful { (limits : Limits) → AllLawful (ip_rules (named_by_peer limits)) ended }
    ensures before { (limits : Limits) → agreed_after (named_by_peer limits) acked_by_us ≡ None }
    ensures agreed { (limits : Limits) → agreed_after (named_by_peer limits) opened ≡ Some (record { local = 10 ∷ 0 ∷ 0 ∷ 7 ∷ []; remote = 10 ∷ 0 ∷ 0 ∷ 1 ∷ [] }) }
    ensures behind { (limits : Limits) → agreed_after (named_by_peer limits) ended ≡ None }
    ensures by_one_line { AllWith (Pap 1) pair opened }
{}
