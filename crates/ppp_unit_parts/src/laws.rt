//! What follows from the definitions alone: the pieces of a packet.

ghost use Rattle.std.specs.Prelude.{◌≡◌, ◌<◌, ℕ, List, length};
ghost use Rattle.ppp_mp.specs.Cut.{Cut};
ghost use Rattle.ppp_mp.specs.Header.{long_octets};
ghost use Rattle.ppp_mp.specs.Members.{AreMembers};
ghost use Rattle.ppp_mp.specs.declared.cuts.CutPiece.{CutPiece};
ghost use Rattle.ppp_mp.specs.declared.members.MemberView.{MemberView};
ghost use Rattle.ppp_unit_parts.specs.Pieces.{cut_of};

/// The cut of a packet over the members of a bundle is one list of pieces: that which a multilink bundle sends.
pub fn one_cut()
    ensures one { (len turn : ℕ) (members : List MemberView) (pieces : List CutPiece) → Cut long_octets len members turn pieces → pieces ≡ cut_of len members turn }
    ensures some { (len turn : ℕ) (members : List MemberView) → 0 < len → 0 < length members → AreMembers 0 members → Cut long_octets len members turn (cut_of len members turn) }
{}
