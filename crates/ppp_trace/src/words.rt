ghost use Rattle.std.specs.Prelude.{◌≡◌, ◌≢◌, ℕ, ◌<◌, ◌^◌, MatchOption, decimal};
ghost use Rattle.ppp_trace.specs.Words.{word_of};

use ppp_base::{LeadingZeros, read_number};
use ppp_fsm::FsmEvent;

/// The word of an event.
#[tactic(auto, unfolding(crate::specs::Words::word_of))]
pub fn word(event: FsmEvent) -> &'static [u8]
    ensures { result.now ≡ word_of event }
{
    match event {
        FsmEvent::Open => b"open",
        FsmEvent::Close => b"close",
        FsmEvent::Up => b"up",
        FsmEvent::Down => b"down",
        FsmEvent::Timeout => b"timeout",
        FsmEvent::RcrGood => b"rcr+",
        FsmEvent::RcrBad => b"rcr-",
        FsmEvent::Rca => b"rca",
        FsmEvent::Rcn => b"rcn",
        FsmEvent::Rtr => b"rtr",
        FsmEvent::Rta => b"rta",
        FsmEvent::Ruc => b"ruc",
        FsmEvent::RxjGood => b"rxj+",
        FsmEvent::RxjBad => b"rxj-",
        FsmEvent::Rxr => b"rxr",
    }
}

/// The number below 2^32 that these digits are, without leading zeros.
pub fn number(digits: &[u8]) -> Option<u32>
    ensures { MatchOption result ((n : ℕ) → n < 2 ^ 32 → digits.now ≢ decimal n) (λ n. (n < 2 ^ 32) × (digits.now ≡ decimal n)) }
{
    let most = u64::from(u32::MAX);
    match read_number(digits, LeadingZeros::Refused, 0, most) {
        Some(number) => Some(number as u32),
        None => None,
    }
}
