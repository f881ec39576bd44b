ghost use Rattle.std.specs.Prelude.{◌≡◌, ◌↔◌, true};
ghost use Rattle.ppp_base.specs.Stepped.{IfStale, IsTaken, OnTaken};
ghost use Rattle.ppp_link_rules.specs.LinkPart.{is_present};
ghost use Rattle.ppp_link_rules.specs.LinkState.{LinkState};
ghost use Rattle.ppp_link.specs.Link.{IsLink, IsWhole};
ghost use Rattle.ppp_link.specs.Steps.{Steps, event_of};

use crate::body::LinkBody;
use crate::event::LinkEvent;
use crate::link::Link;
use crate::{returning, telling};
use ppp_base::Stepped;
use ppp_outside::{Dialer, Spawner};

// One event, of what a link holds.
fn take_event<D: Dialer, S: Spawner>(
    body: &mut LinkBody<D, D::In, D::Out, S>,
    ev: LinkEvent<D, S>,
) -> Stepped<LinkEvent<D, S>>
    requires whole { IsWhole D.state D.In.state body.old }
    ensures taken { (s : LinkState) → IsLink body.old s → (IsTaken result ↔ (is_present (event_of ev) s ≡ true)) }
    ensures part { OnTaken result (Steps ev body.old body.new) }
    ensures stale { IfStale result (λ back. (back ≡ ev) × (body.new ≡ body.old)) }
    ensures whole { IsWhole D.state D.In.state body.new }
{
    match ev {
        LinkEvent::Begin => {
            telling::begin(body);
            Stepped::Taken
        }
        LinkEvent::Dialled(done) => returning::take_dialled(body, done),
        LinkEvent::Bytes(piece) => telling::take_piece(body, piece),
        LinkEvent::LineOver(over) => returning::take_over(body, over),
        LinkEvent::Flushed(sent) => returning::take_sent(body, sent),
        LinkEvent::Tick(now) => {
            telling::tick(body, now);
            Stepped::Taken
        }
        LinkEvent::Signal(word) => {
            telling::signal(body, word);
            Stepped::Taken
        }
        LinkEvent::FromTable(post) => telling::take_from_table(body, post),
        LinkEvent::HookOver(done) => telling::take_done(body, done),
    }
}

impl<D: Dialer, S: Spawner> Link<D, S> {
    /// One event, whole. One that is of another session, errand, place, stay or job is stale: it comes back, and nothing has
    /// changed. It takes no memory.
    pub fn step(&mut self, ev: LinkEvent<D, S>) -> Stepped<LinkEvent<D, S>>
        ensures taken { (s : LinkState) → IsLink self.old s → (IsTaken result ↔ (is_present (event_of ev) s ≡ true)) }
        ensures part { OnTaken result (Steps ev self.old self.new) }
        ensures stale { IfStale result (λ back. (back ≡ ev) × (self.new ≡ self.old)) }
    {
        take_event(&mut self.body, ev)
    }
}
