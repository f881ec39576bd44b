ghost use Rattle.std.specs.Prelude.{◌≡◌, ◌≤◌, ◌<◌, ◌-◌, ◌^◌, [], ◌++◌, min, length, option_to_list, replicate, IfNone, IfOk};
ghost use Rattle.ppp_base.specs.declared.octets.TheConstants.{MOST_FRAME};
ghost use Rattle.ppp_table_parts.specs.declared.head.TheConstants.{MOST_POSTED};
ghost use Rattle.ppp_table_parts.specs.Side.{after_first, first_post, frames_size, idle, posts_of, with_control, with_frame, with_terms, with_wake, without_frames};
ghost use Rattle.ppp_table_parts.specs.Sides.{AreWithin, at_link, frames_dropped, side_of};

use crate::head::FrameHead;
use crate::side::LinkSide;
use crate::terms::JoinTerms;
use ppp_base::{LinkId, NoMemory, Post};
use std::alloc::Global;
use std::marker::Model;

// As many as there may be links.
const SIDES: u8 = 16;

/// What waits for each of the links 1 to 16. Contracts see it as its list.
#[derive(Drop)]
pub struct Sides {
    sides: Vec<LinkSide>,
}

impl Model for Sides {
    ghost use Rattle.std.specs.Prelude.{List, length, ◌≡◌};
    ghost use Rattle.ppp_table_parts.specs.Side.{SideState};

    ghost Value = { List SideState };

    ghost view = { λ s. s.sides.items };

    ghost invariant = { λ s. length s.sides.items ≡ 16 };
}

// The place of a link.
fn place(link: LinkId) -> usize
    ensures place { result ≡ link - 1 }
    ensures within { result ≤ 15 }
{
    (link.number() - 1) as usize
}

impl Sides {
    /// Nothing waits for any link. All room is taken here.
    pub fn new(alloc: Global) -> Result<Sides, NoMemory>
        ensures { IfOk result (λ s. s ≡ replicate 16 idle) }
    {
        let mut sides = Vec::with_capacity(alloc, SIDES as usize).map_err(|_| NoMemory)?;
        for _link in 0..SIDES {
            sides.push_reserved(LinkSide::new(alloc)?);
        }
        Ok(Sides { sides })
    }

    /// For how many links there is room: 16.
    pub fn count(&self) -> u8
        ensures count { result ≡ length self.now }
        ensures sixteen { result ≡ 16 }
    {
        self.sides.len() as u8
    }

    /// A control post waits for a link, in the place of an older one.
    pub fn put_control(&mut self, link: LinkId, post: Post)
        ensures { self.new ≡ at_link link (with_control post) self.old }
    {
        self.sides[place(link)].put_control(post);
    }

    /// A Wake waits for a link.
    pub fn put_wake(&mut self, link: LinkId)
        ensures { self.new ≡ at_link link with_wake self.old }
    {
        self.sides[place(link)].put_wake();
    }

    /// Appends a frame for a link, or counts that it doesn't fit.
    pub fn put_frame(&mut self, link: LinkId, head: FrameHead, information: &[u8])
        requires { length information.now ≤ MOST_FRAME }
        ensures { self.new ≡ at_link link (with_frame head information.now) self.old }
    {
        self.sides[place(link)].put_frame(head, information);
    }

    /// No frames wait for a link any more.
    pub fn clear(&mut self, link: LinkId)
        ensures new { self.new ≡ at_link link without_frames self.old }
        ensures there { link - 1 < length self.old }
    {
        self.sides[place(link)].clear();
    }

    /// A link comes into a bundle with these terms.
    pub fn set_terms(&mut self, link: LinkId, terms: JoinTerms)
        ensures new { self.new ≡ at_link link (with_terms terms) self.old }
        ensures there { (1 ≤ link) × (link - 1 < length self.old) }
    {
        self.sides[place(link)].set_terms(terms);
    }

    /// With which terms a link last came into a bundle.
    pub fn terms(&self, link: LinkId) -> &Option<JoinTerms>
        ensures { result.now ≡ (side_of link self.now).terms }
    {
        self.sides[place(link)].terms()
    }

    /// Takes what waits first for a link. None exactly where nothing waits.
    #[tactic(auto, using(crate::proofs::PostLemmas::first_there))]
    pub fn take(&mut self, link: LinkId) -> Option<Post>
        ensures first { result ≡ first_post (side_of link self.old) }
        ensures new { self.new ≡ at_link link after_first self.old }
        ensures waits { posts_of (side_of link self.old) ≡ option_to_list result ++ posts_of (side_of link self.new) }
        ensures none { IfNone result (posts_of (side_of link self.old) ≡ []) }
        ensures there { link - 1 < length self.old }
    {
        self.sides[place(link)].take()
    }

    /// How many frames found no room. The count stands still at its end.
    #[tactic(auto, using(crate::proofs::SideLemmas::within_one))]
    pub fn dropped(&self) -> u64
        ensures dropped { result ≡ min (frames_dropped self.now) (2 ^ 64 - 1) }
        ensures within { AreWithin self.now }
    {
        let mut dropped: u64 = 0;
        'counting: for side in self.sides.as_slice() {
            dropped = dropped.saturating_add(side.dropped());
        }
        dropped
    }
}
