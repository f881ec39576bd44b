// What is so of a link now.
ghost use Rattle.std.specs.Prelude.{◌≡◌};
ghost use Rattle.ppp_mark.specs.Scripts.{LogLaw};
ghost use Rattle.ppp_link_rules.specs.Facts.{ScriptsFollow};
ghost use Rattle.ppp_link_rules.specs.LinkState.{LinkState, control, wants_line};
ghost use Rattle.ppp_link_rules.specs.Marks.{status_by};
ghost use Rattle.ppp_link_rules.specs.View.{view_of};
ghost use Rattle.ppp_link.specs.Link.{IsLink};

use crate::link::Link;
use ppp_link_events::looking;
use ppp_link_rules::counts::FrameCounts;
use ppp_link_rules::view::LinkView;
use ppp_link_steps::sessions;
use ppp_mark::Log;
use ppp_outside::{Dialer, Spawner};

impl<D: Dialer, S: Spawner> Link<D, S> {
    /// Whether the session's line is wanted: one that isn't may be left.
    pub fn wants_line(&self) -> bool
        ensures { (s : LinkState) → IsLink self.now s → wants_line s ≡ result }
    {
        sessions::wants_line(&self.body.core)
    }

    /// All that happened and was decided.
    pub fn log(&self) -> &Log
        ensures value { result.now ≡ self.now.core.records.scripts.log }
        ensures stands { (s : LinkState) → IsLink self.now s → s.log ≡ result.now }
        ensures scripts { (s : LinkState) → IsLink self.now s → ScriptsFollow s }
        ensures law { LogLaw 0 result.now.past }
    {
        self.body.core.records.log()
    }

    /// The status with which the link has finished.
    pub fn status(&self) -> Option<u8>
        ensures { (s : LinkState) → IsLink self.now s → status_by (control s).doing ≡ result }
    {
        looking::status(&self.body.core)
    }

    /// What the link shows of itself.
    pub fn view(&self) -> LinkView
        ensures { (s : LinkState) → IsLink self.now s → view_of s ≡ result }
    {
        looking::view(&self.body.core)
    }

    /// What was heard, over all sessions.
    pub fn frame_counts(&self) -> FrameCounts
        ensures { (s : LinkState) → IsLink self.now s → s.counts ≡ result }
    {
        self.body.core.counts
    }
}
