ghost use Rattle.std.specs.Prelude.{◌≡◌, ◌≤◌, ◌+◌, nat_le};
ghost use Rattle.ppp_packet.specs.OptionsOf.{Item, item};
ghost use Rattle.ppp_control.specs.Answers.{Judgement, answer_to};
ghost use Rattle.ppp_control.specs.Verdict.{verdict_of};

use crate::sorting::Sorting;
use ppp_packet::OptionList;

/// What is thought of an option.
#[derive(Drop)]
pub enum Judged<'a> {
    /// It is acknowledged.
    Acked,
    /// It is named with these data.
    Named(&'a [u8]),
    /// It is rejected.
    Rejected,
}

/// The answer to a request.
#[derive(Drop)]
pub enum Verdict {
    Ack,
    Nak(OptionList),
    Reject(OptionList),
}

/// Who thinks something of each option.
pub trait Judge {
    ghost use Rattle.ppp_control.specs.Judging.{judgement_of, IsShort};

    /// What is thought of an option.
    ghost judgement: { Self → Item → Judgement };

    /// Judges an option.
    fn judged(&self, kind: u8, body: &[u8]) -> Judged<'_>
        ensures judged { judgement_of result ≡ judgement self.now (item kind body.now) }
        ensures short { IsShort result };
}

/// Goes through a request once, and answers it.
pub fn verdict_by<J: Judge>(request: &OptionList, judge: &J, naks: u8, max_failure: u8) -> Verdict
    ensures { result ≡ verdict_of (answer_to (J.judgement judge.now) (nat_le max_failure naks) request.now) }
{
    let mut sorting = Sorting::new();
    let mut walk = request.iter();
    'judging: while let Some(seen) = walk.next() {
        let judged = judge.judged(seen.kind, seen.body);
        sorting.take(seen.kind, seen.body, judged);
    }
    sorting.verdict(max_failure <= naks)
}
