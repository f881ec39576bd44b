ghost use Rattle.std.specs.Prelude.{◌≡◌, ◌≤◌, ◌<◌, ◌-◌, ◌==◌, IfSome, None, Some, false, true, is_some, length, nat_le, slice_get};
ghost use Rattle.ppp_base.specs.declared.posts.Post.TheVariants as post;
ghost use Rattle.ppp_bundle.specs.declared.event.BundleEvent.TheVariants.{In};
ghost use Rattle.ppp_bundle.specs.UnitPart.{MayEnter};
ghost use Rattle.ppp_unit_parts.specs.Member.{stay_of};
ghost use Rattle.ppp_table_parts.specs.Key.{same_key};
ghost use Rattle.ppp_table_parts.specs.Side.{with_control};
ghost use Rattle.ppp_table_parts.specs.Sides.{at_link};
ghost use Rattle.ppp_table.specs.Fits.{AreApart, IsWhole};
ghost use Rattle.ppp_table.specs.PostPart.{Enters, FramePart, GoesOut, JoinPart, MakesBy, MakesOne, PostPart, Posts, same_stay, terms_of, with_terms_at};
ghost use Rattle.ppp_table.specs.TableState.{AreDrained, stay_in};
ghost use Rattle.ppp_table.specs.UnitStep.{UnitStep};
ghost use Rattle.ppp_table.specs.Verdicts.{has_bundle, mrru_in, room_in, verdict};

use crate::core_state::TableCore;
use crate::stays::{Stay, stay_in};
use ppp_base::{Frame, Join, LinkId, UpPost};
use ppp_bundle::BundleEvent;
use ppp_outside::Spawner;
use ppp_table_parts::terms::JoinTerms;

// A stay, where it is this one.
fn same_stay(stay: u32, found: Option<Stay>) -> Option<Stay>
    ensures { result ≡ same_stay stay found }
{
    match found {
        Some(found) => {
            if found.stay == stay {
                Some(found)
            } else {
                None
            }
        }
        None => None,
    }
}

impl<S: Spawner> TableCore<S> {
    // The stay of a link, where it is a member.
    fn stay_of(&self, link: LinkId) -> Option<Stay>
        requires { length self.now.units ≡ 16 }
        ensures { result ≡ stay_in link self.now }
    {
        stay_in(link, self.units.as_slice())
    }

    // A member goes out.
    #[tactic(auto, using(crate::proofs::Wholes::may_go, crate::proofs::Wholes::same_links))]
    fn take_out(&mut self, link: LinkId, stay: Stay)
        requires whole { IsWhole self.old }
        requires there { stay_in link self.old ≡ Some stay }
        ensures part { GoesOut (Some stay) link self.old self.new }
        ensures links { self.new.links ≡ self.old.links }
        ensures whole { IsWhole self.new }
        ensures gone { stay_in link self.new ≡ None }
    {
        self.unit_takes(
            stay.unit,
            BundleEvent::Out {
                link,
                stay: stay.stay,
            },
        );
    }

    // A member goes out, where it is one.
    fn go_out(&mut self, link: LinkId, stay: Option<Stay>)
        requires whole { IsWhole self.old }
        requires there { IfSome stay (λ s. stay_in link self.old ≡ Some s) }
        ensures part { GoesOut stay link self.old self.new }
        ensures links { self.new.links ≡ self.old.links }
        ensures whole { IsWhole self.new }
        ensures gone { stay ≡ stay_in link self.old → stay_in link self.new ≡ None }
    {
        match stay {
            Some(stay) => self.take_out(link, stay),
            None => {}
        }
    }

    // A Leave takes the member out where the stay is its own.
    fn leave(&mut self, link: LinkId, stay: u32)
        requires whole { IsWhole self.old }
        ensures part { GoesOut (same_stay stay (stay_in link self.old)) link self.old self.new }
        ensures whole { IsWhole self.new }
    {
        let found = self.stay_of(link);
        self.go_out(link, same_stay(stay, found));
    }

    // A frame goes to the unit of its link; where that is no member, it is dropped and counted.
    fn frame(&mut self, link: LinkId, protocol: u16, information: Frame)
        requires whole { IsWhole self.old }
        ensures part { FramePart (stay_in link self.old) link protocol information self.old self.new }
        ensures whole { IsWhole self.new }
    {
        match self.stay_of(link) {
            Some(stay) => self.unit_keeps(
                stay.unit,
                BundleEvent::Frame {
                    link,
                    protocol,
                    information,
                },
            ),
            None => self.stranger = self.stranger.saturating_add(1),
        }
    }

    // A Join of a member first takes it out.
    fn join_post(&mut self, link: LinkId, join: Join)
        requires whole { IsWhole self.old }
        requires link { link ≤ length self.old.links }
        ensures part { JoinPart link join self.old self.new }
        ensures whole { IsWhole self.new }
    {
        let found = self.stay_of(link);
        self.go_out(link, found);
        let Join {
            stay,
            peer,
            disc,
            mrru,
            mru,
            allow,
            ..
        } = join;
        let terms = JoinTerms { peer, disc, mrru };
        let told = self.verdict(link, &terms);
        self.enter(told, link, terms, stay, mru, allow);
    }

    // One post of a link that the options have.
    fn post_of(&mut self, link: LinkId, post: UpPost)
        requires whole { IsWhole self.old }
        requires link { link ≤ length self.old.links }
        ensures part { Posts link post self.old self.new }
        ensures whole { IsWhole self.new }
    {
        match post {
            UpPost::Join(join) => self.join_post(link, join),
            UpPost::Frame {
                protocol,
                information,
            } => self.frame(link, protocol, information),
            UpPost::Leave { stay } => self.leave(link, stay),
        }
    }

    // One post of a link.
    pub(crate) fn post(&mut self, link: LinkId, post: UpPost)
        requires whole { IsWhole self.old }
        ensures part { PostPart link post self.old self.new }
        ensures whole { IsWhole self.new }
    {
        if link.number() as usize <= self.links.len() {
            self.post_of(link, post);
        }
    }
}
