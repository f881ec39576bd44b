ghost use Rattle.std.specs.Prelude.{◌≡◌, ◌+◌, ◌≤◌, ◌∷◌, ◌++◌, [], ℕ, ◌-◌, List, if◌then◌else◌, OnOk, IfOk, IfErr, length, slice_get};
ghost use Rattle.ppp_chat.specs.Pieces.{text_of};
ghost use Rattle.ppp_chat.specs.Steps.{flat_send};
ghost use Rattle.ppp_chat.specs.Words.{parts_behind, return_behind, send_of};

use crate::fault::ScriptFault;
use crate::piece::Piece;
use crate::pieces::Pieces;
use crate::step::Step;
use crate::steps::Steps;
use crate::text::Text;
use std::alloc::Global;

/// Ends each send, unless `\c` does.
const RETURN: u8 = 0x0d;

// Whether the return is sent behind these pieces.
fn has_return(pieces: &[Piece]) -> bool
    ensures { return_behind (slice_get pieces.now (length pieces.now - 1)) ≡ (if result then 13 ∷ [] else []) }
{
    match pieces.last() {
        Some(Piece::NoReturn) => false,
        _ => true,
    }
}

// Takes a piece to these octets. A delay sends them before.
fn push_piece(
    alloc: Global,
    steps: &mut Steps,
    mut octets: Vec<u8>,
    piece: Piece,
) -> Result<Vec<u8>, ScriptFault>
    requires { length octets.items ≤ 513 }
    ensures goes { IfOk result (λ more. (return : List ℕ) (left : List Piece) → steps.old ++ flat_send (parts_behind octets.items return (piece ∷ left)) ≡ steps.new ++ flat_send (parts_behind more.items return left)) }
    ensures room { IfOk result (λ more. (left : List Piece) → length more.items + length (text_of left) ≤ length octets.items + length (text_of (piece ∷ left))) }
    ensures memory { IfErr result (λ fault. fault ≡ ScriptFault.NoMemory) }
{
    match piece {
        Piece::Octet(octet) => {
            octets.push(octet)?;
            Ok(octets)
        }
        Piece::Delay(milliseconds) => {
            steps.push(Step::Send(Text::new(octets)))?;
            steps.push(Step::Pause(milliseconds))?;
            Ok(Vec::new(alloc))
        }
        Piece::NoReturn | Piece::Nothing => Ok(octets),
    }
}

// Adds the octets and the return behind them, if there is one, as a send.
fn push_last(steps: &mut Steps, mut octets: Vec<u8>, has_return: bool) -> Result<(), ScriptFault>
    requires { length octets.items ≤ 512 }
    ensures pushed { OnOk result (steps.new ≡ steps.old ++ Step.Send (octets.items ++ (if has_return then 13 ∷ [] else [])) ∷ []) }
    ensures memory { IfErr result (λ fault. fault ≡ ScriptFault.NoMemory) }
{
    if has_return {
        octets.push(RETURN)?;
    }
    steps.push(Step::Send(Text::new(octets)))
}

// Adds the steps of a send.
pub(crate) fn push_send(
    alloc: Global,
    steps: &mut Steps,
    pieces: &Pieces,
) -> Result<(), ScriptFault>
    requires { length (text_of pieces.now) ≤ 512 }
    ensures pushed { OnOk result (steps.new ≡ steps.old ++ flat_send (send_of pieces.now)) }
    ensures memory { IfErr result (λ fault. fault ≡ ScriptFault.NoMemory) }
{
    let mut octets = Vec::new(alloc);
    let mut left = pieces.as_slice();
    'sending: while let [piece, others @ ..] = left {
        octets = push_piece(alloc, steps, octets, *piece)?;
        left = others;
    }
    push_last(steps, octets, has_return(pieces.as_slice()))
}
