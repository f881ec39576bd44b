ghost use Rattle.std.specs.Prelude.{◌≡◌, ◌≢◌, ℕ, ◌≤◌, ◌<◌, ◌^◌, List, ◌∷◌, ◌++◌, codes, MatchOption, decimal};
ghost use Rattle.ppp_outside.specs.declared.spawner.ScriptEnd.{ScriptEnd};
ghost use Rattle.ppp_trace.specs.FullSteps.{IsHex, IsHook, IsNoFullStep, OfLink, SpellsStep, hook_text};

use crate::fields::{hook, milliseconds, number_in, octets};
use crate::link_step::link_step;
use crate::world_step::WorldStep;
use ppp_base::{Datagram, LinkId, Unit};
use ppp_outside::ScriptEnd;
use ppp_report::number::number_then;

// The end of a unit's script.
fn unit_hook(line: &[u8]) -> Option<(Unit, u32, ScriptEnd)>
    ensures { MatchOption result
        ((unit job : ℕ) (a : ScriptEnd) → unit ≤ 15 → IsHook job a → line.now ≢ codes "unit " ++ (decimal unit ++ 32 ∷ hook_text job a))
        (λ r. (r.0 ≤ 15) × IsHook r.1 r.2 × (line.now ≡ codes "unit " ++ (decimal r.0 ++ 32 ∷ hook_text r.1 r.2))) }
{
    let words = line.strip_prefix(b"unit ")?;
    let (number, rest) = number_then(words, 15)?;
    let (job, answer) = hook(rest)?;
    let unit = Unit::new(number as u8)?;
    Some((unit, job, answer))
}

// A datagram for a unit.
fn packet(line: &[u8]) -> Option<(Unit, Datagram)>
    ensures { MatchOption result
        ((unit : ℕ) (datagram digits : List ℕ) → unit ≤ 15 → IsHex 2048 digits datagram → line.now ≢ codes "packet " ++ (decimal unit ++ 32 ∷ digits))
        (λ r. (r.0 ≤ 15) × ((digits : List ℕ) × IsHex 2048 digits r.1 × (line.now ≡ codes "packet " ++ (decimal r.0 ++ 32 ∷ digits)))) }
{
    let words = line.strip_prefix(b"packet ")?;
    let (number, digits) = number_then(words, 15)?;
    let datagram = octets(digits, 2048)?;
    let unit = Unit::new(number as u8)?;
    Some((unit, datagram))
}

// The link that is to be carried.
fn carry(line: &[u8], links: u8) -> Option<LinkId>
    requires { links ≤ 16 }
    ensures { MatchOption result ((k : ℕ) → 1 ≤ k → k ≤ links → line.now ≢ codes "carry " ++ decimal k) (λ k. (1 ≤ k) × (k ≤ links) × (line.now ≡ codes "carry " ++ decimal k)) }
{
    let digits = line.strip_prefix(b"carry ")?;
    let number = number_in(digits, u64::from(links))?;
    LinkId::new(number as u8)
}

// The step of a link.
fn of_link(line: &[u8], links: u8) -> Option<WorldStep>
    requires { links ≤ 16 }
    ensures { MatchOption result ((k : ℕ) (rest : List ℕ) → OfLink links k line.now rest → IsNoFullStep links line.now) (λ s. SpellsStep links s line.now) }
{
    let (number, rest) = number_then(line, 16)?;
    if u64::from(links) < number {
        return None;
    }
    let link = LinkId::new(number as u8)?;
    link_step(link, rest)
}

/// The step that a line of a full trace is, where the trace has so many links.
pub fn read_step(line: &[u8], links: u8) -> Option<WorldStep>
    requires { links ≤ 16 }
    ensures { MatchOption result (IsNoFullStep links line.now) (λ s. SpellsStep links s line.now) }
{
    if let Some(ms) = milliseconds(line) {
        return Some(WorldStep::TableTick { ms });
    }
    if let Some((unit, job, answer)) = unit_hook(line) {
        return Some(WorldStep::UnitHook { unit, job, answer });
    }
    if let Some((unit, datagram)) = packet(line) {
        return Some(WorldStep::Packet { unit, datagram });
    }
    if let Some(link) = carry(line, links) {
        return Some(WorldStep::Carry { link });
    }
    of_link(line, links)
}
