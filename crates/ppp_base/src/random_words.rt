ghost use Rattle.std.specs.Prelude.{◌≡◌, ℕ};
ghost use Rattle.rand_core.specs.Stream.{next_u32};
ghost use Rattle.rand_core.specs.Steps.{stream_of, steps_u32};
ghost use Rattle.ppp_base.specs.RandomWords.{next_state, next_word, word_step, state_after, branch_of, challenge_of};

use rand_core::utils::NextWord;
use rand_core::{Rng, utils};
use std::marker::Model;

/// The generator of random words. Contracts see it as its state.
#[derive(Clone, Copy, Debug, PartialEq, Eq)]
pub struct RandomWords {
    state: u64,
}

impl Model for RandomWords {
    ghost Value = { ℕ };

    ghost view = { λ words. words.state };

    ghost inverse = { λ s. record { state = s } };
}

impl RandomWords {
    /// The generator at this state. Its first word is not the state's but the next one's.
    pub fn new(state: u64) -> RandomWords
        ensures { result ≡ state }
    {
        RandomWords { state }
    }

    /// The state, from which the same words come again.
    pub fn state(&self) -> u64
        ensures { result ≡ self.now }
    {
        self.state
    }
}

impl RandomWords {
    /// A generator made from the next two words: its state is the first times 2^32 plus the second.
    pub fn branch(&mut self) -> RandomWords
        ensures made { result ≡ branch_of self.old }
        ensures state { self.new ≡ state_after 2 self.old }
    {
        let high = self.next_u32();
        let low = self.next_u32();
        RandomWords::new((u64::from(high) << 32) | u64::from(low))
    }

    /// The octets of a challenge: those of the next four words, the most significant octet of each first.
    pub fn challenge(&mut self) -> [u8; 16]
        ensures octets { result ≡ challenge_of self.old }
        ensures state { self.new ≡ state_after 4 self.old }
    {
        let [a, b, c, d] = self.next_u32().to_be_bytes();
        let [e, f, g, h] = self.next_u32().to_be_bytes();
        let [i, j, k, l] = self.next_u32().to_be_bytes();
        let [m, n, o, p] = self.next_u32().to_be_bytes();
        [a, b, c, d, e, f, g, h, i, j, k, l, m, n, o, p]
    }
}

impl NextWord<u32> for RandomWords {
    ghost step = { word_step };

    fn next_word(&mut self) -> u32 {
        self.state = self
            .state
            .wrapping_mul(6364136223846793005)
            .wrapping_add(1442695040888963407);
        (self.state >> 32) as u32
    }
}

impl Rng for RandomWords {
    ghost stream = { stream_of (steps_u32 word_step) };

    fn next_u32(&mut self) -> u32
        ensures answer { (result, stream_of (steps_u32 word_step) self.new)
            ≡ next_u32 (stream_of (steps_u32 word_step) self.old) }
        ensures word { result ≡ next_word self.old }
        ensures state { self.new ≡ next_state self.old }
    {
        self.next_word()
    }

    fn next_u64(&mut self) -> u64 {
        utils::next_u64_via_u32(self)
    }

    fn fill_bytes(&mut self, dst: &mut [u8]) {
        utils::fill_bytes_via_u32(self, dst)
    }
}
