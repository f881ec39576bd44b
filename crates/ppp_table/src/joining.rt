ghost use Rattle.std.specs.Prelude.{◌≡◌, ◌≤◌, ◌<◌, ◌+◌, None, Some, false, length, slice_get};
ghost use Rattle.ppp_base.specs.declared.posts.Post.TheVariants as post;
ghost use Rattle.ppp_bundle.specs.declared.event.BundleEvent.TheVariants.{In};
ghost use Rattle.ppp_bundle.specs.Replay.{bundles_in};
ghost use Rattle.ppp_table_parts.specs.Side.{with_control};
ghost use Rattle.ppp_table_parts.specs.Sides.{at_link};
ghost use Rattle.ppp_table.specs.Fits.{IsWhole};
ghost use Rattle.ppp_table.specs.PostPart.{Enters, MakesOne, next_number, with_terms_at};
ghost use Rattle.ppp_table.specs.TableState.{stay_in};
ghost use Rattle.ppp_table.specs.UnitStep.{UnitStep};
ghost use Rattle.ppp_table.specs.Verdicts.{has_bundle, room_in, verdict};
ghost use Rattle.ppp_table.specs.declared.verdict.Verdict.TheVariants.{Joins, Makes};

use crate::core_state::TableCore;
use crate::verdict::Verdict;
use ppp_base::{Allow, LinkId, Post, Refusal, Unit};
use ppp_bundle::{Bundle, BundleEvent, UnitWish, unit_wish};
use ppp_outside::Spawner;
use ppp_table_parts::terms::JoinTerms;

// How many bundles a unit has had.
#[tactic(auto, using(crate::proofs::Bundles::few))]
fn bundles_of<S: Spawner>(unit: &Bundle<S>) -> u32
    ensures value { result ≡ bundles_in 0 unit.now.scripts.log.past }
    ensures few { result < 4294967295 }
{
    let _count = unit.log().count();
    unit.bundles()
}

impl<S: Spawner> TableCore<S> {
    // A link is told that it may not join.
    fn refuse(&mut self, link: LinkId, stay: u32, reason: Refusal)
        requires whole { IsWhole self.old }
        ensures new { self.new ≡ record self.old { sides = at_link link (with_control (post.Refused stay reason)) self.old.sides } }
        ensures whole { IsWhole self.new }
    {
        self.sides.put_control(link, Post::Refused { stay, reason });
    }

    // A link comes into the multilink bundle of a unit.
    fn join(&mut self, unit: Unit, link: LinkId, terms: JoinTerms, stay: u32, mru: u16)
        requires whole { IsWhole self.old }
        requires none { stay_in link self.old ≡ None }
        requires told { verdict link terms self.old ≡ Joins unit }
        requires mru { (128 ≤ mru) × (mru ≤ 1500) }
        ensures step { UnitStep unit (In link stay mru) (with_terms_at link terms self.old) self.new }
        ensures whole { IsWhole self.new }
    {
        self.sides.set_terms(link, terms);
        self.unit_takes(unit, BundleEvent::In { link, stay, mru });
    }

    // How many bundles a unit has had.
    fn bundles_of(&self, unit: Unit) -> u32
        requires { length self.now.units ≡ 16 }
        ensures next { result + 1 ≡ next_number (slice_get self.now.units unit) }
        ensures few { result < 4294967295 }
    {
        bundles_of(&self.units[unit.number() as usize])
    }

    // A bundle is made with the options of its maker, which comes in.
    fn make(
        &mut self,
        unit: Unit,
        link: LinkId,
        wish: UnitWish,
        terms: JoinTerms,
        stay: u32,
        mru: u16,
        allow: Allow,
    )
        requires whole { IsWhole self.old }
        requires none { stay_in link self.old ≡ None }
        requires told { verdict link terms self.old ≡ Makes unit }
        requires free { has_bundle (slice_get self.old.units unit) ≡ false }
        requires room { 1024 ≤ room_in (slice_get self.old.units unit) }
        requires mru { (128 ≤ mru) × (mru ≤ 1500) }
        ensures made { MakesOne unit link wish terms stay mru allow self.old self.new }
        ensures whole { IsWhole self.new }
    {
        let number = self.bundles_of(unit) + 1;
        let mrru = terms.mrru;
        self.sides.set_terms(link, terms);
        self.unit_takes(
            unit,
            BundleEvent::Make {
                number,
                maker: link,
                wish,
                mrru,
                allow,
            },
        );
        self.unit_takes(unit, BundleEvent::In { link, stay, mru });
    }

    // A Join, of which the verdict is this.
    pub(crate) fn enter(
        &mut self,
        told: Verdict,
        link: LinkId,
        terms: JoinTerms,
        stay: u32,
        mru: u16,
        allow: Allow,
    )
        requires whole { IsWhole self.old }
        requires none { stay_in link self.old ≡ None }
        requires told { told ≡ verdict link terms self.old }
        requires link { link ≤ length self.old.links }
        requires mru { (128 ≤ mru) × (mru ≤ 1500) }
        ensures part { Enters told link terms stay mru allow self.old self.new }
        ensures whole { IsWhole self.new }
    {
        match told {
            Verdict::Joins(unit) => self.join(unit, link, terms, stay, mru),
            Verdict::Makes(unit) => {
                let wish = unit_wish(&self.links[(link.number() - 1) as usize]);
                self.make(unit, link, wish, terms, stay, mru, allow);
            }
            Verdict::Refuses(reason) => self.refuse(link, stay, reason),
        }
    }
}
