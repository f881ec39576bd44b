ghost use Rattle.std.specs.Prelude.{◌≡◌, ◌≤◌, ◌-◌, Some, is_some, length, slice_get};
ghost use Rattle.ppp_bundle.specs.State.{members_of};
ghost use Rattle.ppp_table.specs.TableState.{TableState};
ghost use Rattle.ppp_table.specs.Verdicts.{alike_from, asked, by_alike, by_asked, by_mrru, first_has, free_from, has_bundle, has_mrru, has_terms, is_of, makes, makes_in, mrru_in, room_in, verdict};

use crate::asking::asked_by;
use crate::core_state::TableCore;
use ppp_base::{LinkId, Mrru, Refusal, Unit};
use ppp_bundle::{Bundle, Member};
use ppp_outside::Spawner;
use ppp_table_parts::sides::Sides;
use ppp_table_parts::terms::{JoinTerms, same_mrru};

// So many marks may follow when a bundle is made.
const ROOM_OF_A_BUNDLE: u32 = 1_024;

/// What becomes of a Join: it joins the bundle of a unit, makes one there, or is refused.
#[derive(Clone, Copy)]
pub enum Verdict {
    /// It joins the bundle of this unit.
    Joins(Unit),
    /// A bundle is made in this unit.
    Makes(Unit),
    /// It is refused.
    Refuses(Refusal),
}

// Whether a link came in under this key.
fn has_terms(terms: &JoinTerms, other: &Option<JoinTerms>) -> bool
    ensures { result ≡ has_terms terms.now.key other.now }
{
    match other {
        Some(other) => terms.has_same_key(other),
        None => false,
    }
}

// Whether the least of these members came in under this key.
fn first_has(terms: &JoinTerms, sides: &Sides, members: &[Member]) -> bool
    ensures { result ≡ first_has terms.now.key sides.now members.now }
{
    match members.first() {
        Some(member) => has_terms(terms, sides.terms(member.link)),
        None => false,
    }
}

// Whether a unit has a multilink bundle with this key.
fn is_of<S: Spawner>(terms: &JoinTerms, sides: &Sides, unit: &Bundle<S>) -> bool
    ensures { result ≡ is_of terms.now.key sides.now unit.now }
{
    unit.mrru().is_some() && first_has(terms, sides, unit.members())
}

// The least unit whose multilink bundle has this key.
fn alike_in<S: Spawner>(terms: &JoinTerms, sides: &Sides, units: &[Bundle<S>]) -> Option<Unit>
    requires { length units.now ≤ 16 }
    ensures { result ≡ alike_from 0 terms.now.key sides.now units.now }
{
    let mut number: u8 = 0;
    'looking: for unit in units {
        if is_of(terms, sides, unit) {
            return Some(Unit::new(number).unwrap());
        }
        number += 1;
    }
    None
}

// The least unit without a bundle.
fn free_in<S: Spawner>(units: &[Bundle<S>]) -> Option<Unit>
    requires { length units.now ≤ 16 }
    ensures { result ≡ free_from 0 units.now }
{
    let mut number: u8 = 0;
    'looking: for unit in units {
        if !unit.has_bundle() {
            return Some(Unit::new(number).unwrap());
        }
        number += 1;
    }
    None
}

// Whether a bundle has the same MRRU pair.
fn has_mrru(mrru: Mrru, other: Option<Mrru>) -> bool
    ensures { result ≡ has_mrru mrru other }
{
    match other {
        Some(other) => same_mrru(mrru, other),
        None => false,
    }
}

impl<S: Spawner> TableCore<S> {
    // Of a unit: whether it has a bundle, what that takes, and the room in its log.
    fn has_bundle(&self, unit: Unit) -> bool
        requires { length self.now.units ≡ 16 }
        ensures { result ≡ has_bundle (slice_get self.now.units unit) }
    {
        self.units[unit.number() as usize].has_bundle()
    }

    fn mrru_of(&self, unit: Unit) -> Option<Mrru>
        requires { length self.now.units ≡ 16 }
        ensures { result ≡ mrru_in (slice_get self.now.units unit) }
    {
        self.units[unit.number() as usize].mrru()
    }

    fn room_of(&self, unit: Unit) -> u32
        requires { length self.now.units ≡ 16 }
        ensures { result ≡ room_in (slice_get self.now.units unit) }
    {
        self.units[unit.number() as usize].log().room()
    }

    // A bundle is made where the log of the unit has room for it.
    fn makes(&self, unit: Unit) -> Verdict
        requires { length self.now.units ≡ 16 }
        ensures { result ≡ makes unit self.now }
    {
        if self.room_of(unit) < ROOM_OF_A_BUNDLE {
            Verdict::Refuses(Refusal::NoRoom)
        } else {
            Verdict::Makes(unit)
        }
    }

    // In the unit that was asked for, or in the least one without a bundle.
    fn by_asked(&self, asked: Option<Unit>) -> Verdict
        requires { length self.now.units ≡ 16 }
        ensures { result ≡ by_asked asked self.now }
    {
        match asked {
            Some(unit) => {
                if self.has_bundle(unit) {
                    Verdict::Refuses(Refusal::UnitTaken)
                } else {
                    self.makes(unit)
                }
            }
            None => match free_in(self.units.as_slice()) {
                Some(unit) => self.makes(unit),
                None => Verdict::Refuses(Refusal::NoRoom),
            },
        }
    }

    // The unit that a link asks for.
    fn asked(&self, link: LinkId) -> Option<Unit>
        ensures { result ≡ asked link (slice_get self.now.links (link - 1)) }
    {
        match self.links.as_slice().get((link.number() - 1) as usize) {
            Some(config) => asked_by(link, config),
            None => None,
        }
    }

    // Of a link with multilink: it joins the bundle of its key, where there is one.
    fn by_alike(&self, mrru: Mrru, alike: Option<Unit>, link: LinkId) -> Verdict
        requires { length self.now.units ≡ 16 }
        ensures { result ≡ by_alike mrru alike link self.now }
    {
        match alike {
            Some(unit) => {
                if has_mrru(mrru, self.mrru_of(unit)) {
                    Verdict::Joins(unit)
                } else {
                    Verdict::Refuses(Refusal::Unlike)
                }
            }
            None => self.by_asked(self.asked(link)),
        }
    }

    // Which bundle a link joins or makes, or why it is refused.
    pub(crate) fn verdict(&self, link: LinkId, terms: &JoinTerms) -> Verdict
        requires { length self.now.units ≡ 16 }
        ensures { result ≡ verdict link terms.now self.now }
    {
        match terms.mrru {
            Some(mrru) => {
                let alike = alike_in(terms, &self.sides, self.units.as_slice());
                self.by_alike(mrru, alike, link)
            }
            None => self.by_asked(self.asked(link)),
        }
    }
}
