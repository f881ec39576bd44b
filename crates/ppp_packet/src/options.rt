ghost use Rattle.std.specs.Prelude.{◌≡◌, ◌+◌, ◌<◌, ◌≤◌, [], ◌∷◌, ◌++◌, List, length, IsTrue, ◌↔◌, MatchResult, MatchOption, IfOk, IfSome, IfNone, slice_get};
ghost use Rattle.std.specs.Result.{result_ok};
ghost use Rattle.ppp_packet.specs.OptionsOf.{Item, item, laid, laid_item, IsFault, OptionsOf, FaultOf};
ghost use Rattle.ppp_packet.specs.OptionList.{read_options};
ghost use Rattle.ppp_packet.specs.declared.fault.OptionFault.{OptionFault};

use crate::body::{Body, ItemBody, MOST_BODY, MOST_ITEM_BODY};
use crate::fault::OptionFault;
use crate::option_item::OptionItem;
use std::marker::Model;

/// An option as it lies in its list.
#[derive(Clone, Copy)]
pub struct OptionRef<'a> {
    pub kind: u8,
    pub body: &'a [u8],
}

/// An option, and the octets behind it.
#[derive(Drop)]
struct Split<'a> {
    kind: u8,
    body: &'a [u8],
    rest: &'a [u8],
}

// The option that the octets begin with.
fn first_item(octets: &[u8]) -> Result<Split<'_>, OptionFault>
    requires { 0 < length octets.now }
    ensures found { MatchResult result (λ s. octets.now ≡ laid_item (item s.kind s.body.now) ++ s.rest.now) (λ fault. IsFault fault octets.now) }
    ensures short { IfOk result (λ s. length s.body.now ≤ MOST_ITEM_BODY) }
{
    if octets.len() < 2 {
        return Err(OptionFault::Cut);
    }
    let kind = octets[0];
    let size = octets[1] as usize;
    if size < 2 {
        return Err(OptionFault::BadLength);
    }
    if octets.len() < size {
        return Err(OptionFault::Cut);
    }
    let (_header, behind) = octets.split_at(2);
    let (body, rest) = behind.split_at(size - 2);
    Ok(Split { kind, body, rest })
}

/// Options one after the other. Contracts see them as the list of items.
#[derive(Debug, Drop)]
pub struct OptionList {
    octets: Body,
}

impl Model for OptionList {
    ghost use Rattle.std.specs.Prelude.{List};
    ghost use Rattle.ppp_packet.specs.OptionsOf.{Item};
    ghost use Rattle.ppp_packet.specs.OptionList.{items_of, IsLaid};

    ghost Value = { List Item };

    ghost view = { λ o. items_of o.octets };

    ghost invariant = { λ o. IsLaid o.octets };
}

/// What is read.
pub struct Options;

impl Options {
    /// Reads options.
    pub fn read(bytes: &[u8]) -> Result<OptionList, OptionFault>
        requires { length bytes.now ≤ MOST_BODY }
        ensures found { MatchResult result (λ list. OptionsOf bytes.now list) (λ fault. FaultOf bytes.now fault) }
        ensures alone { (items : List Item) → OptionsOf bytes.now items → result ≡ Ok items }
        ensures first_fault { (fault : OptionFault) → FaultOf bytes.now fault → result ≡ Err fault }
        ensures function { result_ok result ≡ read_options bytes.now }
    {
        Options::find(bytes)
    }

    // The options, or the first fault.
    fn find(bytes: &[u8]) -> Result<OptionList, OptionFault>
        requires { length bytes.now ≤ MOST_BODY }
        ensures { MatchResult result (λ list. OptionsOf bytes.now list) (λ fault. FaultOf bytes.now fault) }
    {
        let mut left = bytes;
        'reading: while left.len() > 0 {
            match first_item(left) {
                Ok(split) => {
                    left = split.rest;
                }
                Err(fault) => {
                    return Err(fault);
                }
            }
        }
        let mut octets = Body::new();
        octets.append(bytes);
        Ok(OptionList { octets })
    }
}

impl OptionList {
    /// No options.
    pub fn new() -> OptionList
        ensures { result ≡ [] }
    {
        OptionList {
            octets: Body::new(),
        }
    }

    /// The octets.
    pub fn as_slice(&self) -> &[u8]
        ensures octets { result.now ≡ laid self.now }
        ensures within { length result.now ≤ MOST_BODY }
    {
        self.octets.as_slice()
    }

    /// The octets as a packet's data.
    pub fn to_body(&self) -> Body
        ensures { result ≡ laid self.now }
    {
        self.octets.copy()
    }

    /// The same options again. It takes no memory.
    pub fn copy(&self) -> OptionList
        ensures { result ≡ self.now }
    {
        OptionList {
            octets: self.octets.copy(),
        }
    }

    /// How many octets there are.
    pub fn size(&self) -> usize
        ensures size { result ≡ length (laid self.now) }
        ensures within { result ≤ MOST_BODY }
    {
        self.as_slice().len()
    }

    /// Whether there are none.
    pub fn is_empty(&self) -> bool
        ensures { IsTrue result ↔ (self.now ≡ []) }
    {
        self.as_slice().len() == 0
    }

    /// Appends an option.
    pub fn push(&mut self, kind: u8, body: &[u8])
        requires short { length body.now ≤ MOST_ITEM_BODY }
        requires room { length (laid self.old) + (length body.now + 2) ≤ MOST_BODY }
        ensures { self.new ≡ self.old ++ item kind body.now ∷ [] }
    {
        self.octets.push(kind);
        self.octets.push((body.len() + 2) as u8);
        self.octets.append(body);
    }

    /// How many options there are.
    pub fn count(&self) -> usize
        ensures count { result ≡ length self.now }
        ensures within { result ≤ 752 }
    {
        let mut items = self.iter();
        let mut count = 0;
        'counting: loop {
            match items.next() {
                Some(_) => count += 1,
                None => return count,
            }
        }
    }

    /// The option at this place, from 0. None is past the last.
    pub fn get(&self, at: usize) -> Option<OptionItem>
        ensures { MatchOption result (length self.now ≤ at)
            (λ found. slice_get self.now at ≡ Some (item found.kind found.body)) }
    {
        let mut items = self.iter();
        'passing: for _passed in 0..at {
            items.next()?;
        }
        let seen = items.next()?;
        let mut body = ItemBody::new();
        body.append(seen.body);
        Some(OptionItem {
            kind: seen.kind,
            body,
        })
    }

    /// Goes through the options.
    pub fn iter(&self) -> OptionIter<'_>
        ensures items { result ≡ self.now }
        ensures within { length (laid result) ≤ MOST_BODY }
    {
        OptionIter {
            left: self.octets.as_slice(),
        }
    }
}

/// The options that are left to see.
#[derive(Drop)]
pub struct OptionIter<'a> {
    left: &'a [u8],
}

impl<'a> Model for OptionIter<'a> {
    ghost use Rattle.std.specs.Prelude.{List};
    ghost use Rattle.ppp_packet.specs.OptionsOf.{Item};
    ghost use Rattle.ppp_packet.specs.OptionList.{items_of, IsLaid};

    ghost Value = { List Item };

    ghost view = { λ w. items_of w.left.now };

    ghost invariant = { λ w. IsLaid w.left.now };
}

impl<'a> OptionIter<'a> {
    /// The next option.
    pub fn next(&mut self) -> Option<OptionRef<'a>>
        ensures item { MatchOption result (self.old ≡ []) (λ s. self.old ≡ item s.kind s.body.now ∷ self.new) }
        ensures short { IfSome result (λ s. length s.body.now ≤ MOST_ITEM_BODY) }
        ensures ended { IfNone result (self.new ≡ []) }
    {
        if self.left.len() == 0 {
            return None;
        }
        match first_item(self.left) {
            Ok(split) => {
                self.left = split.rest;
                Some(OptionRef {
                    kind: split.kind,
                    body: split.body,
                })
            }
            Err(_) => unreachable!(),
        }
    }
}
