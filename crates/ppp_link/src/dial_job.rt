ghost use Rattle.std.specs.Prelude.{◌≡◌, ℕ, ◌<◌, is_none, IfSome};
ghost use Rattle.ppp_outside.specs.Dialer.{Dials, GivesNewLine, is_fault};
ghost use Rattle.ppp_outside.specs.Line.{IsNewLine};
ghost use Rattle.ppp_outside.specs.Sink.{IsNewSink};
ghost use Rattle.ppp_link.specs.ErrandValues.{DialJobCounts, DialDoneCounts};

use ppp_base::LinkId;
use ppp_outside::{Dialer, Dialled, LineWords, ScriptedDialer};
use std::marker::Model;

/// A dial that an attempt waits for, and the dialer that is to make it. A link alone makes one.
#[derive(Drop)]
pub struct DialJob<D: Dialer> {
    pub(crate) link: LinkId,
    pub(crate) session: u32,
    pub(crate) failed: u32,
    pub(crate) line: LineWords,
    pub(crate) dialer: D,
}

impl<D: Dialer> Model for DialJob<D> {
    ghost use Rattle.std.specs.Prelude.{◌-◌, ◌<◌};
    ghost use Rattle.ppp_hooks.specs.HookState.{WasHandedIn};
    ghost use Rattle.ppp_link.specs.ErrandValues.{DialJobState};

    ghost Value = { DialJobState D };

    ghost view = { λ j. record { link = j.link; session = j.session; failed = j.failed; line = j.line; dialer = j.dialer } };

    ghost invariant = { λ j. (0 < j.session) × WasHandedIn (D.state j.dialer).tries (D.state j.dialer).faults (j.session - 1) j.failed };
}

/// A dial that was made, with the line that it gave, if it gave one. `DialJob::run` alone makes one.
#[derive(Drop)]
pub struct DialDone<D: Dialer> {
    pub(crate) link: LinkId,
    pub(crate) session: u32,
    pub(crate) failed: u32,
    pub(crate) dialer: D,
    pub(crate) came: Option<(D::In, D::Out)>,
}

impl<D: Dialer> Model for DialDone<D> {
    ghost use Rattle.std.specs.Prelude.{IfSome};
    ghost use Rattle.ppp_hooks.specs.HookState.{WasHandedIn};
    ghost use Rattle.ppp_outside.specs.Line.{IsNewLine};
    ghost use Rattle.ppp_outside.specs.Sink.{IsNewSink};
    ghost use Rattle.ppp_link.specs.ErrandValues.{DialDoneState, failed_with};

    ghost Value = { DialDoneState D D.In D.Out };

    ghost view = { λ d. record { link = d.link; session = d.session; failed = d.failed; dialer = d.dialer; came = d.came } };

    ghost invariant = { λ d. WasHandedIn (D.state d.dialer).tries (D.state d.dialer).faults d.session (failed_with d.failed d.came)
        × IfSome d.came (λ line. IsNewLine (D.In.state line.0) × IsNewSink (D.Out.state line.1)) };
}

impl<D: Dialer> DialJob<D> {
    /// Dials the link's line, once.
    pub fn run(self) -> DialDone<D>
        ensures same_job { (result.link ≡ self.link) × (result.session ≡ self.session) × (result.failed ≡ self.failed) }
        ensures dials { Dials (D.state self.dialer) (D.state result.dialer) self.line (is_none result.came) }
        ensures new_line { IfSome result.came (λ line. IsNewLine (D.In.state line.0) × IsNewSink (D.Out.state line.1)) }
        ensures as_told { IfSome (D.coming self.dialer) (λ set. is_none result.came ≡ is_fault set) }

        // The counts go on from those with which the dialer was handed in.
        ensures counts { (t f : ℕ) → DialJobCounts (λ d. (D.state d).tries) (λ d. (D.state d).faults) t f self
            → DialDoneCounts (λ d. (D.state d).tries) (λ d. (D.state d).faults) t f result }
    {
        let DialJob {
            link,
            session,
            failed,
            line,
            mut dialer,
        } = self;
        let came = match dialer.dial(&line) {
            Dialled::Line(input, output) => Some((input, output)),
            Dialled::Failed => None,
        };
        DialDone {
            link,
            session,
            failed,
            dialer,
            came,
        }
    }

    /// The number of its session, from 1 on.
    pub fn session(&self) -> u32
        ensures value { result ≡ self.now.session }
        ensures counted { 0 < result }
    {
        self.session
    }
}

impl<D: ScriptedDialer> DialJob<D> {
    /// Sets what the dialer answers next. Its counts and what it was asked stay.
    pub fn next_is(&mut self, answer: &D::Next)
        ensures job { self.new ≡ record self.old { dialer = self.new.dialer } }
        ensures same { D.SameButNext self.old.dialer self.new.dialer }
        ensures next { D.next self.new.dialer ≡ answer.now }
        ensures state { D.state self.new.dialer ≡ D.state self.old.dialer }
        ensures told { IfSome (D.coming self.new.dialer) (λ told. told ≡ answer.now) }
    {
        self.dialer.next_is(answer);
    }
}
