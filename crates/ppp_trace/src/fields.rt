ghost use Rattle.std.specs.Prelude.{◌≡◌, ◌≢◌, ℕ, ◌<◌, ◌≤◌, ◌^◌, List, ◌∷◌, ◌++◌, codes, MatchOption, decimal};
ghost use Rattle.ppp_outside.specs.declared.spawner.ScriptEnd.{ScriptEnd};
ghost use Rattle.ppp_trace.specs.FullSteps.{IsHex, IsHook, hook_text};

use crate::bare::answer;
use ppp_base::{Datagram, LeadingZeros, read_hex, read_number};
use ppp_outside::ScriptEnd;
use ppp_report::number::number_then;

/// The greatest moment, in milliseconds.
const MOST_TIME: u64 = 1 << 56;

/// The octets, 1 to `most`, that these digits are.
pub fn octets(digits: &[u8], most: usize) -> Option<Datagram>
    requires { most ≤ 2048 }
    ensures { MatchOption result ((octets : List ℕ) → IsHex most digits.now octets → ⊥) (λ octets. IsHex most digits.now octets) }
{
    let mut octets = Datagram::new();
    if !read_hex(digits, &mut octets) || octets.is_empty() || most < octets.len() {
        return None;
    }
    Some(octets)
}

/// A job and how its script ended.
pub fn hook(text: &[u8]) -> Option<(u32, ScriptEnd)>
    ensures { MatchOption result ((job : ℕ) (a : ScriptEnd) → IsHook job a → text.now ≢ hook_text job a) (λ r. IsHook r.0 r.1 × (text.now ≡ hook_text r.0 r.1)) }
{
    let words = text.strip_prefix(b"hook ")?;
    let (job, rest) = number_then(words, u64::from(u32::MAX))?;
    let answer = answer(rest)?;
    Some((job as u32, answer))
}

/// A moment.
pub fn milliseconds(text: &[u8]) -> Option<u64>
    ensures { MatchOption result ((ms : ℕ) → ms ≤ 2 ^ 56 → text.now ≢ codes "tick " ++ decimal ms) (λ ms. (ms ≤ 2 ^ 56) × (text.now ≡ codes "tick " ++ decimal ms)) }
{
    let digits = text.strip_prefix(b"tick ")?;
    number_in(digits, MOST_TIME)
}

/// The number from 0 to the most that these digits are.
#[tactic(auto, using(crate::proofs::NumberLemmas::number_cases))]
pub fn number_in(digits: &[u8], most: u64) -> Option<u64>
    ensures { MatchOption result ((n : ℕ) → n ≤ most → digits.now ≢ decimal n) (λ n. (n ≤ most) × (digits.now ≡ decimal n)) }
{
    read_number(digits, LeadingZeros::Refused, 0, most)
}
