//! What is true of the definitions, each proved of a function that does nothing.

ghost use Rattle.ppp_base.specs.declared.octets.TheConstants.{MOST_FRAME};
ghost use Rattle.std.specs.Prelude.{◌≡◌, ℕ, ◌+◌, ◌-◌, ◌≤◌, ◌↔◌, Bool, List, [], ◌∷◌, ◌++◌, length, take, replicate};
ghost use Rattle.ppp_base.specs.declared.send_settings.SendSettings.{SendSettings as Settings};
ghost use Rattle.ppp_hdlc.specs.Frames.{Received, Frames, answer, stamped};
ghost use Rattle.ppp_hdlc.specs.Encoding.{encoding, settings_for, with_fcs};
ghost use Rattle.ppp_hdlc.specs.Arrives.{Arrives, IsFramable, IsWithin, framed_length};
ghost use Rattle.ppp_hdlc.specs.IsRight.{IsRight};
ghost use Rattle.ppp_hdlc.specs.Residue.{Residue, good_residue, remainder};
ghost use Rattle.ppp_hdlc.specs.Register.{register_after};
ghost use Rattle.ppp_hdlc.specs.Quotient.{IsDivision};
ghost use Rattle.ppp_hdlc.specs.Deframing.{Deframing, StandsFor, fed, heard_at};
ghost use Rattle.ppp_hdlc.specs.Spans.{IsSpan, fed_all};

use crate::heard::Heard;

/// A frame that was written is heard as it was, whatever octets came before. Its first flag closes
/// what came before, its last one gives the frame, and the octets between them give nothing.
pub fn frames_back()
    ensures heard { (stream sent : List Received) (settings : Settings) (protocol : ℕ) (information : List ℕ) →
        Arrives settings protocol information sent →
        Frames (stream ++ sent) ≡ Frames (stream ++ take 1 sent) ++ Heard.Frame protocol information ∷ [] }
    ensures at_its_last_octet { (stream sent : List Received) (settings : Settings) (protocol : ℕ) (information : List ℕ) →
        Arrives settings protocol information sent →
        Frames (stream ++ take (length sent - 1) sent) ≡ Frames (stream ++ take 1 sent) }
{}

/// Frames do arrive: each one with such a protocol and such a length does, under each map that the
/// sending map covers. Its length without escapes is that of the information and 3 to 6 octets more.
pub fn frames_arrive()
    ensures arrives { (settings : Settings) (protocol : ℕ) (information : List ℕ) (receiving : ℕ) →
        IsFramable protocol → 4 ≤ framed_length settings protocol information → framed_length settings protocol information ≤ MOST_FRAME →
        IsWithin receiving (settings_for settings protocol information).map →
        Arrives settings protocol information (stamped receiving (encoding settings protocol information)) }
    ensures at_least { (settings : Settings) (protocol : ℕ) (information : List ℕ) →
        length information + 3 ≤ framed_length settings protocol information }
    ensures at_most { (settings : Settings) (protocol : ℕ) (information : List ℕ) →
        framed_length settings protocol information ≤ length information + 6 }
{}

/// A frame is answered at a flag exactly where the octets before it end with no escape, are 4 to
/// 1,508 after unescaping, have a right check sum, and begin with this protocol.
pub fn right_frames_pass()
    ensures { (part : List ℕ) (protocol : ℕ) (information : List ℕ) →
        (answer part ≡ Heard.Frame protocol information) ↔ IsRight part protocol information }
{}

/// Octets with their check sum behind them leave the good residue (RFC 1662, C.2).
pub fn good_residue_is_left()
    ensures { (octets : List ℕ) → Residue (with_fcs octets) ≡ good_residue }
{}

/// The register of RFC 1662, appendix C, begun with all ones, leaves the remainder of the division.
pub fn register_leaves_residue()
    ensures { (octets : List ℕ) → Residue octets ≡ register_after 0xffff octets }
{}

/// The remainder is one: the dividend is a multiple of the divisor, and that remainder, of a lower power.
pub fn remainder_is_of_division()
    ensures { (dividend : List Bool) → (quotient : List Bool) × IsDivision dividend quotient (remainder dividend) }
{}

/// It is the only one: each rest of a lower power that such a quotient leaves is that remainder, and of no
/// coefficients at all the rest is 0.
pub fn remainder_is_the_only_rest()
    ensures only { (dividend quotient rest : List Bool) → IsDivision dividend quotient rest → rest ≡ remainder dividend }
    ensures empty { (quotient rest : List Bool) → IsDivision [] quotient rest → rest ≡ replicate 16 Bool.false }
{}

/// A piece has one span and no other. That of one octet is the octet, with the answer that it is given by
/// itself.
pub fn a_piece_has_one_span()
    ensures one { (octets : List ℕ) (d : Deframing) (used used' : ℕ) (heard heard' : Heard) →
        IsSpan octets d used heard → IsSpan octets d used' heard' → (used ≡ used') × (heard ≡ heard') }
    ensures some { (octets : List ℕ) (d : Deframing) → (used : ℕ) × (heard : Heard) × IsSpan octets d used heard }
    ensures octet { (octet : ℕ) (d : Deframing) → IsSpan (octet ∷ []) d 1 (heard_at octet d) × (fed_all (octet ∷ []) d ≡ fed octet d) }
{}
