ghost use Rattle.std.specs.Prelude.{◌≡◌, ℕ, ◌+◌, ◌≤◌, Ok, List, length, MatchResult};
ghost use Rattle.ppp_mark.specs.Lines.{lines_of};
ghost use Rattle.ppp_secrets.specs.Reading.{secrets_of};
ghost use Rattle.ppp_trace.specs.FullFault.{IsWrongStep, options_in};
ghost use Rattle.ppp_trace.specs.Parts.{TellsOptions, TellsSecrets, Tells, AreSteps};
ghost use Rattle.ppp_trace.specs.declared.TheConstants.{MOST_OCTETS};

use crate::MOST_FULL_STEPS;
use crate::fault::{FaultKind, TraceFault};
use crate::full_step::read_step;
use crate::sections::bad_at;
use ppp_base::NoMemory;
use ppp_mark::lines::first_line;
use ppp_option_words::{Config, OptionsFault};
use ppp_options::read_options_text;
use ppp_secrets::{Secrets, SecretsFault};
use std::alloc::Global;

/// The options whose section stands at this line.
pub fn options_at(alloc: Global, text: &[u8], line: u64) -> Result<Config, TraceFault>
    ensures { MatchResult result (λ config. options_in text.now ≡ Ok config) (TellsOptions line text.now) }
{
    match read_options_text(alloc, text) {
        Ok(config) => Ok(config),
        Err(OptionsFault::NoMemory) => Err(TraceFault::NoMemory(NoMemory)),
        Err(_) => Err(bad_at(line, FaultKind::Options)),
    }
}

/// The secrets whose section stands at this line.
pub fn secrets_at(alloc: Global, text: &[u8], line: u64) -> Result<Secrets, TraceFault>
    ensures { MatchResult result (λ secrets. secrets_of text.now ≡ Ok secrets) (TellsSecrets line text.now) }
{
    match Secrets::read(alloc, text) {
        Ok(secrets) => Ok(secrets),
        Err(SecretsFault::NoMemory) => Err(TraceFault::NoMemory(NoMemory)),
        Err(_) => Err(bad_at(line, FaultKind::Secrets)),
    }
}

/// Looks at the steps behind so many lines.
pub fn check_steps(text: &[u8], links: u8, line: u64) -> Result<(), TraceFault>
    requires { links ≤ 16 }
    ensures { line + length (lines_of text.now) ≤ MOST_OCTETS → MatchResult result (λ _. AreSteps links (lines_of text.now)) (Tells (IsWrongStep links line (lines_of text.now))) }
{
    let mut rest = text;
    let mut count = 0usize;
    'lines: while !rest.is_empty() {
        let (first, others) = first_line(rest);
        let at = line.saturating_add(1).saturating_add(count as u64);
        let Some(_step) = read_step(first, links) else {
            return Err(bad_at(at, FaultKind::Step));
        };
        if count >= MOST_FULL_STEPS {
            return Err(bad_at(at, FaultKind::Steps));
        }
        count += 1;
        rest = others;
    }
    Ok(())
}
