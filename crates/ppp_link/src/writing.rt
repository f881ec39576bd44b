ghost use Rattle.std.specs.Prelude.{◌≡◌, ℕ, ◌<◌, ◌≤◌, ◌-◌, length, take, drop, IfSome};
ghost use Rattle.ppp_link.specs.ErrandValues.{HasSent, IsSentEnd, is_all};
ghost use Rattle.ppp_outside.specs.Sink.{takes_text};

use ppp_base::{LinkId, Octets};
use ppp_link_rules::errand::SentEnd;
use ppp_outside::{ScriptedSink, Sink, SinkNext, Took};
use std::marker::Model;

/// Octets of a link on their way to its line, with the line's writing half. A link alone makes one.
#[derive(Drop)]
pub struct Writing<O: Sink + Drop> {
    pub(crate) link: LinkId,
    pub(crate) session: u32,
    pub(crate) octets: Octets<1024>,
    pub(crate) output: O,
}

impl<O: Sink + Drop> Model for Writing<O> {
    ghost use Rattle.ppp_link.specs.ErrandValues.{WritingState};

    ghost Value = { WritingState O };

    ghost view = { λ w. record { link = w.link; session = w.session; octets = w.octets; output = w.output } };
}

/// A writing that came back, and how. `Writing::run` alone makes one.
#[derive(Drop)]
pub struct Sent<O: Sink + Drop> {
    pub(crate) link: LinkId,
    pub(crate) session: u32,
    pub(crate) end: SentEnd,
    pub(crate) output: O,
}

impl<O: Sink + Drop> Model for Sent<O> {
    ghost use Rattle.ppp_link.specs.ErrandValues.{SentState, IsSentEnd};

    ghost Value = { SentState O };

    ghost view = { λ s. record { link = s.link; session = s.session; end = s.end; output = s.output } };

    ghost invariant = { λ s. IsSentEnd s.end (O.state s.output) };
}

// Writes the octets by turns, each what the sink took.
fn write_out<O: Sink>(output: &mut O, octets: &[u8]) -> SentEnd
    ensures sent { HasSent result (O.state output.old) (O.state output.new) octets.now }
    ensures fault { IsSentEnd result (O.state output.new) }
    ensures as_told { IfSome (O.coming output.old) (λ set. is_all result ≡ takes_text set octets.now) }
{
    let mut at = 0;
    'writing: while at < octets.len() {
        match output.write(&octets[at..]) {
            Took::Took(count) => at += count,
            Took::Failed => return SentEnd::Failed(at),
        }
    }
    SentEnd::All
}

impl<O: Sink + Drop> Writing<O> {
    /// Its octets.
    pub fn octets(&self) -> &[u8]
        ensures octets { result.now ≡ self.now.octets }
        ensures within { length result.now ≤ 1024 }
    {
        self.octets.as_slice()
    }

    /// Writes the octets.
    pub fn run(self) -> Sent<O>
        ensures same { (result.link ≡ self.link) × (result.session ≡ self.session) }
        ensures sent { HasSent result.end (O.state self.output) (O.state result.output) self.octets }
        ensures as_told { IfSome (O.coming self.output) (λ set. is_all result.end ≡ takes_text set self.octets) }
    {
        let Writing {
            link,
            session,
            octets,
            mut output,
        } = self;
        let end = write_out(&mut output, octets.as_slice());
        Sent {
            link,
            session,
            end,
            output,
        }
    }
}

impl<O: ScriptedSink + Drop> Writing<O> {
    /// Sets what the sink answers next. Its count and what was written stay.
    pub fn next_is(&mut self, answer: &SinkNext)
        ensures writing { self.new ≡ record self.old { output = self.new.output } }
        ensures same { O.SameButNext self.old.output self.new.output }
        ensures next { O.next self.new.output ≡ answer.now }
        ensures state { O.state self.new.output ≡ O.state self.old.output }
    {
        self.output.next_is(answer);
    }
}
