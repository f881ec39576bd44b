ghost use Rattle.std.specs.Prelude.{◌≡◌, ◌≢◌, ℕ, ◌<◌, ◌≤◌, ◌^◌, List, ◌∷◌, ◌++◌, codes, MatchOption, decimal};
ghost use Rattle.std.specs.List.{find};
ghost use Rattle.std.specs.Str.{bytes_eq};
ghost use Rattle.ppp_base.specs.declared.signal_word.SignalWord.{SignalWord};
ghost use Rattle.ppp_trace.specs.declared.link_word.TheConstants.{LINK_WORDS};
ghost use Rattle.ppp_trace.specs.declared.link_word.LinkWord.{LinkWord};
ghost use Rattle.ppp_trace.specs.FullSteps.{IsHex, OfLink, IsNoFullStep, SpellsStep, link_text, signal_text};

use crate::fields::{hook, milliseconds, octets};
use crate::link_word::{LINK_WORDS, LinkWord};
use crate::world_step::{LineOctets, WorldStep};
use ppp_base::{LinkId, SignalWord};
use ppp_outside::signal_named;
use ppp_report::number::number_then;

// What stands behind a link's number, where it has no number and no octets.
fn link_word(text: &[u8]) -> Option<LinkWord>
    ensures { result ≡ find (λ w. bytes_eq (link_text w) text.now) LINK_WORDS }
{
    LINK_WORDS.iter().copied().find(|w| w.text() == text)
}

// Octets of a line.
fn line_octets(digits: &[u8]) -> Option<LineOctets>
    ensures { MatchOption result ((octets : List ℕ) → IsHex 1024 digits.now octets → ⊥) (λ octets. IsHex 1024 digits.now octets) }
{
    let octets = octets(digits, 1024)?;
    LineOctets::from_octets(octets.as_slice())
}

// A signal of a link.
fn signal(text: &[u8]) -> Option<SignalWord>
    ensures { MatchOption result ((word : SignalWord) → text.now ≢ codes "word " ++ signal_text word) (λ word. text.now ≡ codes "word " ++ signal_text word) }
{
    let word = text.strip_prefix(b"word ")?;
    signal_named(word)
}

// Octets of a link's line, with their session and place.
fn placed_octets(words: &[u8]) -> Option<(u32, u64, LineOctets)>
    ensures { MatchOption result
        ((session offset : ℕ) (octets digits : List ℕ) → session < 2 ^ 32 → offset < 2 ^ 64 → IsHex 1024 digits octets → words.now ≢ decimal session ++ 32 ∷ (decimal offset ++ 32 ∷ digits))
        (λ r. (r.0 < 2 ^ 32) × (r.1 < 2 ^ 64) × ((digits : List ℕ) × IsHex 1024 digits r.2 × (words.now ≡ decimal r.0 ++ 32 ∷ (decimal r.1 ++ 32 ∷ digits)))) }
{
    let (session, rest) = number_then(words, u64::from(u32::MAX))?;
    let (offset, digits) = number_then(rest, u64::MAX)?;
    let octets = line_octets(digits)?;
    Some((session as u32, offset, octets))
}

// The step of the link that a line is whose octets these are.
fn octets_step(link: LinkId, text: &[u8]) -> Option<WorldStep>
    ensures { (links : ℕ) (line : List ℕ) → OfLink links link line text.now
        → MatchOption result
        (((octets digits : List ℕ) → IsHex 1024 digits octets → text.now ≢ codes "rx " ++ digits)
        × ((session offset : ℕ) (octets digits : List ℕ) → session < 2 ^ 32 → offset < 2 ^ 64 → IsHex 1024 digits octets
        → text.now ≢ codes "rx " ++ (decimal session ++ 32 ∷ (decimal offset ++ 32 ∷ digits))))
        (λ s. SpellsStep links s line) }
{
    let words = text.strip_prefix(b"rx ")?;
    if let Some(octets) = line_octets(words) {
        return Some(WorldStep::Rx { link, octets });
    }
    let (session, offset, octets) = placed_octets(words)?;
    Some(WorldStep::RxAt {
        link,
        session,
        offset,
        octets,
    })
}

/// The step of a link, by what stands behind its number.
pub fn link_step(link: LinkId, text: &[u8]) -> Option<WorldStep>
    ensures { (links : ℕ) (line : List ℕ) → links ≤ 16 → OfLink links link line text.now → MatchOption result (IsNoFullStep links line) (λ s. SpellsStep links s line) }
{
    if let Some(word) = link_word(text) {
        return Some(word.of(link));
    }
    if let Some(ms) = milliseconds(text) {
        return Some(WorldStep::Tick { link, ms });
    }
    if let Some(word) = signal(text) {
        return Some(WorldStep::Word { link, word });
    }
    if let Some((job, answer)) = hook(text) {
        return Some(WorldStep::Hook { link, job, answer });
    }
    octets_step(link, text)
}
