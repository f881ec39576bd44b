ghost use Rattle.std.specs.Prelude.{◌≡◌, ◌+◌, ◌≤◌, ◌++◌, [], ◌∷◌, length, if◌then◌else◌};
ghost use Rattle.ppp_packet.specs.OptionsOf.{item, laid};
ghost use Rattle.ppp_lcp.specs.Ours.{first_method, fits_mru, fits_mrru, allowed_method};

use crate::judge::{is_chap, is_pap, number2, number4};
use crate::magic::has_magic;
use crate::wish::LcpWish;
use ppp_base::{DEFAULT_MRU, LEAST_MRRU, LEAST_MRU, RandomWords};
use ppp_control::names_kind;
use ppp_packet::{Body, Method, OptionList};
use rand_core::Rng;

/// Our options that were rejected.
#[derive(Clone, Copy)]
pub struct LeftOut {
    pub mru: bool,
    pub map: bool,
    pub method: bool,
    pub magic: bool,
    pub pfc: bool,
    pub acfc: bool,
    pub mrru: bool,
    pub disc: bool,
}

/// What we ask for at present.
#[derive(Clone, Copy)]
pub struct Ours {
    pub mru: u16,
    pub map: u32,
    pub method: Option<Method>,
    /// Our magic number, 0 where we have none.
    pub magic: u32,
    pub mrru: u16,
    /// The generator of magic numbers.
    pub generator: RandomWords,
    pub left_out: LeftOut,
}

// Appends an option, where it is asked for.
fn push_if(list: &mut OptionList, test: bool, kind: u8, body: &[u8])
    requires short { length body.now ≤ 21 }
    requires room { length (laid list.old) ≤ 1000 }
    ensures new { list.new ≡ list.old ++ (if test then item kind body.now ∷ [] else []) }
    ensures grows { length (laid list.new) ≤ length (laid list.old) + 23 }
{
    if test {
        list.push(kind, body);
    }
}

// By what the peer is asked first to prove who it is.
fn first_method(wish: &LcpWish) -> Option<Method>
    ensures { result ≡ first_method wish.now }
{
    if wish.want_chap {
        Some(Method::Chap)
    } else if wish.want_pap {
        Some(Method::Pap)
    } else {
        None
    }
}

// Whether an option's data are an MRU that we take.
fn fits_mru(wish: &LcpWish, body: &[u8]) -> bool
    ensures { result ≡ fits_mru wish.now body.now }
{
    body.len() == 2 && LEAST_MRU <= number2(body) && number2(body) <= wish.mru
}

// Whether they are an MRRU that we take.
fn fits_mrru(wish: &LcpWish, body: &[u8]) -> bool
    ensures { result ≡ fits_mrru wish.now body.now }
{
    body.len() == 2 && LEAST_MRRU <= number2(body) && number2(body) <= wish.mrru
}

// The method that they are, where it is allowed, or else another.
fn allowed_method(wish: &LcpWish, body: &[u8], other: Option<Method>) -> Option<Method>
    ensures { result ≡ allowed_method wish.now body.now other }
{
    if is_chap(body) && wish.want_chap {
        Some(Method::Chap)
    } else if is_pap(body) && wish.want_pap {
        Some(Method::Pap)
    } else {
        other
    }
}

impl Ours {
    ghost use Rattle.ppp_lcp.specs.Ours.{word_of, skipped};
    ghost use Rattle.ppp_lcp.specs.Taking.{drawn, asks, asks_method, asks_disc, ours_of, nak_item, nak_items, after_nak, after_reject};

    /// What the wish asks for. The first word is our magic number, where we ask for one.
    pub fn new(wish: &LcpWish, words: u64) -> Ours
        ensures { result ≡ ours_of wish.now words [] }
    {
        let left_out = LeftOut {
            mru: false,
            map: false,
            method: false,
            magic: false,
            pfc: false,
            acfc: false,
            mrru: false,
            disc: false,
        };
        let mut ours = Ours {
            mru: wish.mru,
            map: wish.map,
            method: first_method(wish),
            magic: 0,
            mrru: wish.mrru,
            generator: RandomWords::new(words),
            left_out,
        };
        if wish.magic {
            ours.draw();
        }
        ours
    }

    /// The next word, or 1 where it is 0.
    #[tactic(auto, unfolding(crate::specs::Ours::word_of))]
    pub fn word(&self) -> u32
        ensures { result ≡ word_of self.now.generator }
    {
        let mut generator = self.generator;
        generator.next_u32().max(1)
    }

    /// Takes the next word out of the generator.
    #[tactic(auto, unfolding(crate::specs::Ours::skipped))]
    pub fn skip(&mut self)
        ensures { self.new ≡ record self.old { generator = skipped self.old.generator } }
    {
        let mut generator = self.generator;
        let _ = generator.next_u32();
        self.generator = generator;
    }

    /// Our magic number is the next word.
    pub fn draw(&mut self)
        ensures { self.new ≡ drawn self.old }
    {
        self.magic = self.word();
        self.skip();
    }

    /// The options of a new request, in rising type.
    #[tactic(auto, unfolding(crate::specs::Taking::asks))]
    pub fn asks(&self, wish: &LcpWish) -> OptionList
        ensures { result ≡ asks wish.now self.now }
    {
        let out = self.left_out;
        let mut list = OptionList::new();
        push_if(
            &mut list,
            self.mru != DEFAULT_MRU && !out.mru,
            1,
            &self.mru.to_be_bytes(),
        );
        push_if(
            &mut list,
            !wish.default_map && !out.map,
            2,
            &self.map.to_be_bytes(),
        );
        self.push_method(&mut list);
        push_if(
            &mut list,
            wish.magic && !out.magic,
            5,
            &self.magic.to_be_bytes(),
        );
        push_if(&mut list, wish.pfc && !out.pfc, 7, &[]);
        push_if(&mut list, wish.acfc && !out.acfc, 8, &[]);
        push_if(
            &mut list,
            wish.multilink && !out.mrru,
            17,
            &self.mrru.to_be_bytes(),
        );
        self.push_disc(wish, &mut list);
        list
    }

    fn push_method(&self, list: &mut OptionList)
        requires room { length (laid list.old) ≤ 1000 }
        ensures new { list.new ≡ list.old ++ asks_method self.now }
        ensures grows { length (laid list.new) ≤ length (laid list.old) + 23 }
    {
        match self.method {
            Some(Method::Chap) => push_if(list, !self.left_out.method, 3, &[0xc2, 0x23, 0x05]),
            Some(Method::Pap) => push_if(list, !self.left_out.method, 3, &[0xc0, 0x23]),
            None => {}
        }
    }

    fn push_disc(&self, wish: &LcpWish, list: &mut OptionList)
        requires room { length (laid list.old) ≤ 1000 }
        ensures { list.new ≡ list.old ++ asks_disc wish.now self.now }
    {
        if let Some(disc) = &wish.disc {
            let mut body = Body::new();
            body.push(disc.class());
            body.append(disc.address());
            push_if(
                list,
                wish.multilink && !self.left_out.mrru && !self.left_out.disc,
                19,
                body.as_slice(),
            );
        }
    }

    // What one option of a Nak changes.
    fn take_named(&mut self, wish: &LcpWish, kind: u8, body: &[u8])
        ensures { self.new ≡ nak_item wish.now self.old (item kind body.now) }
    {
        if kind == 1 && fits_mru(wish, body) {
            self.mru = number2(body);
        }
        if kind == 2 && body.len() == 4 {
            self.map = self.map | number4(body);
        }
        if kind == 3 {
            self.method = allowed_method(wish, body, self.method);
        }
        if kind == 17 && fits_mrru(wish, body) {
            self.mrru = number2(body);
        }
    }

    /// A Nak of our last request.
    #[tactic(auto, unfolding(crate::specs::Taking::after_nak))]
    pub fn take_nak(&mut self, wish: &LcpWish, items: &OptionList)
        ensures { self.new ≡ after_nak wish.now self.old items.now }
    {
        let redraws = wish.magic && !self.left_out.magic;
        let is_magic = has_magic(items);
        self.take_items(wish, items);
        if is_magic && redraws {
            self.draw();
        }
    }

    fn take_items(&mut self, wish: &LcpWish, items: &OptionList)
        ensures { self.new ≡ nak_items wish.now self.old items.now }
    {
        let mut walk = items.iter();
        'taking: while let Some(seen) = walk.next() {
            self.take_named(wish, seen.kind, seen.body);
        }
    }

    /// A Reject of some options of our last request.
    pub fn take_reject(&mut self, items: &OptionList)
        ensures { self.new ≡ after_reject self.old items.now }
    {
        let out = self.left_out;
        let is_magic = names_kind(items, 5);
        self.left_out = LeftOut {
            mru: names_kind(items, 1) || out.mru,
            map: names_kind(items, 2) || out.map,
            method: names_kind(items, 3) || out.method,
            magic: is_magic || out.magic,
            pfc: names_kind(items, 7) || out.pfc,
            acfc: names_kind(items, 8) || out.acfc,
            mrru: names_kind(items, 17) || out.mrru,
            disc: names_kind(items, 19) || out.disc,
        };
        if is_magic {
            self.magic = 0;
        }
    }
}
