ghost use Rattle.std.specs.Prelude.{◌≡◌, ◌+◌, ◌≤◌, ◌<◌, ◌++◌, ◌∷◌, [], false, length, option_to_list, IfOk, IfNone};
ghost use Rattle.circular_buffer.specs.Buffer.{buffer};
ghost use Rattle.ppp_base.specs.declared.posts.UpPost.TheVariants as post;
ghost use Rattle.ppp_link_parts.specs.UpRing.{has_leave, join_value, ring_of, values_of, with_frame, without_first};
ghost use Rattle.ppp_link_rules.specs.Rings.{has_control, put_control, put_frame};
ghost use Rattle.ppp_link_rules.specs.UpValue.{Asks, Leaves};

use circular_buffer::HeapCircularBuffer;
use ppp_base::{Frame, Join, MOST_FRAME, NoMemory, UpPost};
use ppp_link_rules::limits::{FRAME_HEAD, FRAME_ROOM};
use std::alloc::Global;
use std::marker::Model;

// What waits at a place.
#[derive(Clone, Copy, Debug, PartialEq, Eq)]
pub enum Entry {
    Join,
    Frame { protocol: u16, size: u16 },
    Leave,
}

// The most entries: frames without information, a Join and a Leave.
const MOST_ENTRIES: usize = 16_130;

// What waits for the table, and how many frames found no room.
#[derive(Drop)]
pub struct UpRing {
    entries: HeapCircularBuffer<Entry>,
    octets: HeapCircularBuffer<u8>,
    join: Option<Join>,
    leave: Option<u32>,
    frames: usize,
    dropped: u64,
}

impl Model for UpRing {
    ghost use Rattle.std.specs.Prelude.{◌≡◌};
    ghost use Rattle.ppp_base.specs.declared.posts.UpPost.{UpPost};
    ghost use Rattle.ppp_base.specs.RingAfter.{Ring};
    ghost use Rattle.ppp_link_parts.specs.UpRing.{IsUp, posts_of};
    ghost use Rattle.ppp_link_rules.specs.declared.limits.TheConstants.{FRAME_ROOM};

    ghost Value = { Ring UpPost };

    ghost view = { λ r. record { waiting = posts_of r.entries.items r.octets.items r.join r.leave; dropped = r.dropped } };

    ghost invariant = { λ r. IsUp r.entries.items r.octets.items r.join r.leave r.frames
        × (r.entries.capacity ≡ 16130) × (r.octets.capacity ≡ FRAME_ROOM) };
}

// Appends an entry, for which there is room.
fn append(entries: &mut HeapCircularBuffer<Entry>, entry: Entry)
    requires { length entries.old.items < entries.old.capacity }
    ensures { entries.new ≡ buffer (entries.old.items ++ entry ∷ []) entries.old.capacity }
{
    let _ = entries.try_push_back(entry);
}

// Appends octets, for which there is room.
fn fill(octets: &mut HeapCircularBuffer<u8>, information: &[u8])
    requires { length octets.old.items + length information.now ≤ octets.old.capacity }
    ensures { octets.new ≡ buffer (octets.old.items ++ information.now) octets.old.capacity }
{
    octets.fill_from_slice(information);
}

impl UpRing {
    /// An empty one. All its room is taken here.
    pub fn new(alloc: Global) -> Result<UpRing, NoMemory>
        ensures { IfOk result (λ r. r ≡ record { waiting = []; dropped = 0 }) }
    {
        let entries = HeapCircularBuffer::with_capacity(alloc, MOST_ENTRIES)?;
        let octets = HeapCircularBuffer::with_capacity(alloc, FRAME_ROOM)?;
        Ok(UpRing {
            entries,
            octets,
            join: None,
            leave: None,
            frames: 0,
            dropped: 0,
        })
    }

    /// Takes the post that waits longest.
    pub fn take(&mut self) -> Option<UpPost>
        ensures first { self.old.waiting ≡ option_to_list result ++ self.new.waiting }
        ensures none { IfNone result (self.old.waiting ≡ []) }
        ensures dropped { self.new.dropped ≡ self.old.dropped }
        ensures new { self.new ≡ without_first self.old }
    {
        match self.entries.pop_front() {
            None => None,
            Some(Entry::Join) => match self.join.take() {
                Some(join) => Some(UpPost::Join(join)),
                None => None,
            },
            Some(Entry::Leave) => match self.leave.take() {
                Some(stay) => Some(UpPost::Leave { stay }),
                None => None,
            },
            Some(Entry::Frame { protocol, size }) => {
                let mut buf = [0; 1508];
                let count = self.octets.read_into(&mut buf[..size as usize]);
                self.frames -= 1;
                let mut information = Frame::new();
                information.append(&buf[..count]);
                Some(UpPost::Frame {
                    protocol,
                    information,
                })
            }
        }
    }

    /// Whether a Join or a Leave waits.
    #[tactic(auto, using(crate::proofs::UpLemmas::controls_up))]
    pub fn has_control(&self) -> bool
        ensures { result ≡ has_control (values_of self.now.waiting) }
    {
        self.join.is_some() || self.leave.is_some()
    }

    /// Appends a Join, where no Join and no Leave waits.
    pub fn put_join(&mut self, join: Join)
        requires { has_control (values_of self.old.waiting) ≡ false }
        ensures new { self.new ≡ record self.old { waiting = self.old.waiting ++ post.Join join ∷ [] } }
        ensures value { ring_of self.new ≡ put_control (Asks (join_value join)) (ring_of self.old) }
    {
        append(&mut self.entries, Entry::Join);
        self.join = Some(join);
    }

    /// Appends a Leave, where none waits.
    pub fn put_leave(&mut self, stay: u32)
        requires { has_leave (values_of self.old.waiting) ≡ false }
        ensures new { self.new ≡ record self.old { waiting = self.old.waiting ++ post.Leave stay ∷ [] } }
        ensures value { ring_of self.new ≡ put_control (Leaves stay) (ring_of self.old) }
    {
        append(&mut self.entries, Entry::Leave);
        self.leave = Some(stay);
    }

    /// Appends a frame, or counts that it doesn't fit.
    pub fn put_frame(&mut self, protocol: u16, information: &[u8])
        requires { length information.now ≤ MOST_FRAME }
        ensures new { self.new ≡ with_frame protocol information.now self.old }
        ensures value { ring_of self.new ≡ put_frame protocol information.now (ring_of self.old) }
    {
        let taken = FRAME_HEAD * self.frames + self.octets.len();
        if taken + FRAME_HEAD + information.len() <= FRAME_ROOM {
            let size = information.len() as u16;
            append(&mut self.entries, Entry::Frame { protocol, size });
            fill(&mut self.octets, information);
            self.frames += 1;
        } else {
            self.dropped = self.dropped.saturating_add(1);
        }
    }
}
