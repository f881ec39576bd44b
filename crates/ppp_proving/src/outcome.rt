ghost use Rattle.std.specs.Prelude.{◌≡◌};

use ppp_packet::AuthOutcome;

/// The same outcome again. It takes no memory.
pub fn copied(outcome: &AuthOutcome) -> AuthOutcome
    ensures { result ≡ outcome.now }
{
    match outcome {
        AuthOutcome::Waiting => AuthOutcome::Waiting,
        AuthOutcome::Passed(name, line) => AuthOutcome::Passed(name.copy(), *line),
        AuthOutcome::Refused(name) => AuthOutcome::Refused(name.copy()),
        AuthOutcome::Unanswered(times) => AuthOutcome::Unanswered(*times),
    }
}
