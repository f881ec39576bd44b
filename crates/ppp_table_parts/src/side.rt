ghost use Rattle.std.specs.Prelude.{◌≡◌, ◌≤◌, [], ◌∷◌, ◌++◌, None, false, length, option_to_list, IfNone, IfOk};
ghost use Rattle.ppp_base.specs.declared.octets.TheConstants.{MOST_FRAME};
ghost use Rattle.ppp_table_parts.specs.declared.head.TheConstants.{MOST_POSTED};
ghost use Rattle.ppp_table_parts.specs.Side.{after_first, first_post, frames_size, idle, post_of, posts_of, with_control, with_frame, with_terms, with_wake, without_frames};

use crate::head::{FrameHead, HEAD_SIZE, MOST_POSTED};
use crate::terms::JoinTerms;
use ppp_base::{Frame, NoMemory, Post};
use ppp_ring::PieceRing;
use std::alloc::Global;
use std::marker::Model;

/// What waits for one link.
#[derive(Drop)]
pub struct LinkSide {
    control: Option<Post>,
    wake: bool,
    ring: PieceRing<FrameHead, 1508>,
    dropped: u64,
    terms: Option<JoinTerms>,
}

impl Model for LinkSide {
    ghost use Rattle.std.specs.Prelude.{◌≡◌, ◌≤◌};
    ghost use Rattle.ppp_table_parts.specs.declared.head.TheConstants.{HEAD_SIZE, MOST_POSTED};
    ghost use Rattle.ppp_table_parts.specs.Side.{SideState, frames_size};

    ghost Value = { SideState };

    ghost view = { λ s. record { control = s.control; wake = s.wake; frames = record { waiting = s.ring.waiting; dropped = s.dropped }; terms = s.terms } };

    ghost invariant = { λ s. (s.ring.beside ≡ HEAD_SIZE) × (s.ring.most ≡ MOST_POSTED) × (frames_size s.ring.waiting ≤ MOST_POSTED) };
}

// A frame as the post that it waits for.
fn post_of(head: FrameHead, information: Frame) -> Post
    ensures { result ≡ post_of (record { head = head; octets = information }) }
{
    let protocol = head.protocol;
    if head.rejected {
        Post::Reject {
            protocol,
            information,
        }
    } else {
        Post::Send {
            protocol,
            information,
        }
    }
}

impl LinkSide {
    /// Nothing waits. All room is taken here.
    pub fn new(alloc: Global) -> Result<LinkSide, NoMemory>
        ensures { IfOk result (λ s. s ≡ idle) }
    {
        let ring = PieceRing::new(alloc, HEAD_SIZE, MOST_POSTED)?;
        Ok(LinkSide {
            control: None,
            wake: false,
            ring,
            dropped: 0,
            terms: None,
        })
    }

    /// A control post waits, in the place of an older one.
    pub fn put_control(&mut self, post: Post)
        ensures { self.new ≡ with_control post self.old }
    {
        self.control = Some(post);
    }

    /// A Wake waits.
    pub fn put_wake(&mut self)
        ensures { self.new ≡ with_wake self.old }
    {
        self.wake = true;
    }

    /// Appends a frame, or counts that it doesn't fit.
    pub fn put_frame(&mut self, head: FrameHead, information: &[u8])
        requires { length information.now ≤ MOST_FRAME }
        ensures { self.new ≡ with_frame head information.now self.old }
    {
        if !self.ring.put(head, information) {
            self.dropped = self.dropped.saturating_add(1);
        }
    }

    /// No frames wait any more.
    pub fn clear(&mut self)
        ensures { self.new ≡ without_frames self.old }
    {
        self.ring.clear();
    }

    /// The link has come into a bundle with these terms.
    pub fn set_terms(&mut self, terms: JoinTerms)
        ensures { self.new ≡ with_terms terms self.old }
    {
        self.terms = Some(terms);
    }

    /// With which terms the link last came into a bundle.
    pub fn terms(&self) -> &Option<JoinTerms>
        ensures { result.now ≡ self.now.terms }
    {
        &self.terms
    }

    /// How many frames found no room.
    pub fn dropped(&self) -> u64
        ensures dropped { result ≡ self.now.frames.dropped }
        ensures within { frames_size self.now.frames.waiting ≤ MOST_POSTED }
    {
        self.dropped
    }

    // The frame that waits longest, as a post.
    fn take_frame(&mut self) -> Option<Post>
        requires { (self.old.control ≡ None) × (self.old.wake ≡ false) }
        ensures first { result ≡ first_post self.old }
        ensures new { self.new ≡ after_first self.old }
    {
        match self.ring.take() {
            Some((head, information)) => Some(post_of(head, information)),
            None => None,
        }
    }

    /// Takes the control post, then a Wake, then the frames in their order. None exactly where none waits.
    #[tactic(auto, using(crate::proofs::PostLemmas::first_is, crate::proofs::PostLemmas::none_waits))]
    pub fn take(&mut self) -> Option<Post>
        ensures first { result ≡ first_post self.old }
        ensures new { self.new ≡ after_first self.old }
        ensures waits { posts_of self.old ≡ option_to_list result ++ posts_of self.new }
        ensures none { IfNone result (posts_of self.old ≡ []) }
    {
        if let Some(post) = self.control.take() {
            return Some(post);
        }
        if self.wake {
            self.wake = false;
            return Some(Post::Wake);
        }
        self.take_frame()
    }
}
