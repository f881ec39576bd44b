ghost use Rattle.std.specs.Prelude.{◌≡◌, ◌≤◌, ◌∷◌, None, MatchOption, IfSome, IfOk, IfErr, length};
ghost use Rattle.ppp_chat.specs.Pieces.{pieces_behind, pieces_of, unquoted, text_of, with_piece};
ghost use Rattle.ppp_chat.specs.Reading.{Spells};

use crate::fault::ScriptFault;
use crate::octets::MOST_SENT;
use crate::piece::{Piece, first_piece};
use crate::text::Text;
use std::alloc::{AllocError, Global};
use std::marker::Model;

/// The pieces of a word or of a part of one. Contracts see them as their list.
#[derive(Drop)]
pub(crate) struct Pieces {
    pieces: Vec<Piece>,
}

impl Model for Pieces {
    ghost use Rattle.std.specs.Prelude.{List};
    ghost use Rattle.ppp_chat.specs.declared.piece.Piece.{Piece};

    ghost Value = { List Piece };

    ghost view = { λ pieces. pieces.pieces.items };
}

// What a part is without two quote marks as the whole.
fn unquoted(part: &[u8]) -> &[u8]
    ensures { result.now ≡ unquoted part.now }
{
    if part == b"''".as_slice() || part == b"\"\"".as_slice() {
        return &[];
    }
    part
}

// The piece that an octet begins, before these others, and what stands behind it.
fn take_piece(octet: u8, others: &[u8]) -> Option<(Piece, &[u8])>
    ensures read { MatchOption result (pieces_behind 0 (octet ∷ others.now) ≡ None)
        (λ found. pieces_behind 0 (octet ∷ others.now) ≡ with_piece found.0 (pieces_behind 0 found.1.now)) }
    ensures within { IfSome result (λ found. length found.1.now ≤ length others.now) }
{
    let spelled = first_piece(octet, others)?;
    Some((spelled.piece, &others[spelled.more..]))
}

impl Pieces {
    /// Reads the escapes of a part of a word, which has this number.
    pub fn read(alloc: Global, number: usize, part: &[u8]) -> Result<Pieces, ScriptFault>
        ensures { Spells number result (pieces_of part.now) }
    {
        let mut pieces = Vec::new(alloc);
        let mut left = unquoted(part);
        'reading: while let [octet, others @ ..] = left {
            let Some((piece, behind)) = take_piece(*octet, others) else {
                return Err(ScriptFault::BadEscape(number));
            };
            pieces.push(piece)?;
            left = behind;
        }
        Ok(Pieces { pieces })
    }

    /// The pieces.
    pub fn as_slice(&self) -> &[Piece]
        ensures { result.now ≡ self.now }
    {
        self.pieces.as_slice()
    }

    /// How many octets they have.
    pub fn text_len(&self) -> usize
        ensures { result ≡ length (text_of self.now) }
    {
        self.pieces.iter().filter_map(|piece| piece.octet()).count()
    }

    // Their octets, as many as there are.
    fn octets(&self, alloc: Global) -> Result<Vec<u8>, AllocError>
        ensures { IfOk result (λ octets. octets.items ≡ text_of self.now) }
    {
        self.pieces
            .iter()
            .filter_map(|piece| piece.octet())
            .collect(alloc)
    }

    /// Their octets.
    pub fn text(&self, alloc: Global) -> Result<Text, ScriptFault>
        requires { length (text_of self.now) ≤ MOST_SENT }
        ensures text { IfOk result (λ text. text ≡ text_of self.now) }
        ensures memory { IfErr result (λ fault. fault ≡ ScriptFault.NoMemory) }
    {
        let octets = self.octets(alloc)?;
        Ok(Text::new(octets))
    }
}
