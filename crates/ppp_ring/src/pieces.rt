ghost use Rattle.std.specs.Prelude.{◌≡◌, ◌≤◌, ◌==◌, ℕ, List, [], ◌++◌, length, option_map, option_to_list, IfOk, IfNone};
ghost use Rattle.ppp_ring.specs.Pieces.{fits, with_piece};

use circular_buffer::HeapCircularBuffer;
use ppp_base::{NoMemory, Octets};
use std::alloc::Global;
use std::marker::Model;

/// Pieces of at most `N` octets, each with a head, the oldest first. All its room is taken by `new`.
#[derive(Drop)]
pub struct PieceRing<T: Copy, const N: usize> {
    heads: HeapCircularBuffer<T>,
    sizes: HeapCircularBuffer<usize>,
    octets: HeapCircularBuffer<u8>,
    beside: u8,
    most: usize,
}

impl<T: Copy, const N: usize> Model for PieceRing<T, N> {
    ghost use Rattle.std.specs.Prelude.{◌≡◌, ◌≤◌, ◌*◌};
    ghost use Rattle.ppp_ring.specs.Pieces.{AreKept, PiecesNow, pieces_of};

    ghost Value = { PiecesNow T };

    ghost view = { λ r. record { waiting = pieces_of r.heads.items r.sizes.items r.octets.items; beside = r.beside; most = r.most } };

    ghost invariant = { λ r. AreKept N r.beside r.most r.heads.items r.sizes.items r.octets.items
        × (r.most ≤ r.heads.capacity * r.beside) × (r.most ≤ r.sizes.capacity * r.beside) × (r.octets.capacity ≡ r.most) };
}

impl<T: Copy, const N: usize> PieceRing<T, N> {
    /// An empty one, whose pieces take at most `most` octets, each `beside` octets beside its own.
    pub fn new(alloc: Global, beside: u8, most: usize) -> Result<PieceRing<T, N>, NoMemory>
        requires some { 1 ≤ beside }
        requires most { most ≤ 1048576 }
        ensures { IfOk result (λ r. r ≡ record { waiting = []; beside = beside; most = most }) }
    {
        let count = most / usize::from(beside) + 1;
        let heads = HeapCircularBuffer::with_capacity(alloc, count)?;
        let sizes = HeapCircularBuffer::with_capacity(alloc, count)?;
        let octets = HeapCircularBuffer::with_capacity(alloc, most)?;
        Ok(PieceRing {
            heads,
            sizes,
            octets,
            beside,
            most,
        })
    }

    /// Appends a piece, and tells whether it had room. One without room is dropped.
    pub fn put(&mut self, head: T, octets: &[u8]) -> bool
        requires { length octets.now ≤ N }
        ensures told { result ≡ fits (record { head = head; octets = octets.now }) self.old }
        ensures new { self.new ≡ with_piece (record { head = head; octets = octets.now }) self.old }
    {
        let taken = usize::from(self.beside) * self.sizes.len() + self.octets.len();
        if self.most - taken < usize::from(self.beside) + octets.len() {
            return false;
        }
        self.heads.push_back(head);
        self.sizes.push_back(octets.len());
        self.octets.fill_from_slice(octets);
        true
    }

    /// Takes the oldest piece.
    pub fn take(&mut self) -> Option<(T, Octets<N>)>
        ensures first { self.old.waiting ≡ option_to_list (option_map (λ (p : T × List ℕ). record { head = p.0; octets = p.1 }) result) ++ self.new.waiting }
        ensures none { IfNone result (self.old.waiting ≡ []) }
        ensures room { (self.new.beside ≡ self.old.beside) × (self.new.most ≡ self.old.most) }
    {
        let head = self.heads.pop_front()?;
        let size = self.sizes.pop_front()?;
        let mut buf = [0; N];
        let count = self.octets.read_into(&mut buf[..size]);
        let mut octets = Octets::new();
        octets.append(&buf[..count]);
        Some((head, octets))
    }

    /// None wait any more.
    pub fn clear(&mut self)
        ensures { self.new ≡ record self.old { waiting = [] } }
    {
        self.heads.clear();
        self.sizes.clear();
        self.octets.clear();
    }

    /// Whether none wait.
    pub fn is_empty(&self) -> bool
        ensures { result ≡ (length self.now.waiting == 0) }
    {
        self.heads.is_empty()
    }
}
