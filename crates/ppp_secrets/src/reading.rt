ghost use Rattle.std.specs.Prelude.{IfOk};
ghost use Rattle.ppp_secrets.specs.SecretLine.{IsRising};
ghost use Rattle.ppp_secrets.specs.Reading.{secrets_of};
ghost use Rattle.ppp_secrets.specs.Answers.{Gives};

use crate::fault::SecretsFault;
use crate::line::{Line, read_line};
use ppp_base::first_part;
use std::alloc::Global;

// The lines of a secrets file that have words.
#[tactic(auto, using(crate::proofs::LineLemmas::held_from_cons, crate::proofs::LineLemmas::held_from_none, crate::proofs::LineLemmas::held_from_one))]
pub fn read_lines(alloc: Global, text: &[u8]) -> Result<Vec<Line>, SecretsFault>
    ensures read { Gives (λ lines. lines.items) result (secrets_of text.now) }
    ensures rising { IfOk result (λ lines. IsRising lines.items) }
{
    let mut lines = Vec::new(alloc);
    let mut count = 0u32;
    let mut rest = Some(text);
    'reading: while let Some(octets) = rest {
        let Some(number) = count.checked_add(1) else {
            return Err(SecretsFault::NoMemory);
        };
        let (octets, others) = first_part(octets, b'\n');
        if let Some(line) = read_line(alloc, number, octets)? {
            lines.push(line)?;
        }
        count = number;
        rest = others;
    }
    Ok(lines)
}
