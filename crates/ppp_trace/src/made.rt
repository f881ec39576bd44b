ghost use Rattle.std.specs.Prelude.{◌≡◌, ◌+◌, ◌-◌, ◌*◌, ◌≤◌, ◌<◌, ◌^◌, ◌++◌, [], codes, OnOk, length};
ghost use Rattle.std.specs.Fmt.{decimal};
ghost use Rattle.ppp_trace.specs.MadeTrace.{after_word, drawn, five_words, hears, heard, in_pieces, link_line, lived, packet_line, said, script_ends, word_octets};

use crate::life::LifeStep;
use crate::made_line::{framed, with_hex, with_number};
use ppp_base::{NoMemory, Octets, RandomWords, protocol};
use rand_core::Rng;
use std::alloc::Global;
use std::marker::Model;

// The acknowledgement of our LCP request: asyncmap 0, and both compressions.
const LCP_ACK: [u8; 14] = [2, 1, 0, 14, 2, 6, 0, 0, 0, 0, 7, 2, 8, 2];

/// A made trace as far as it goes: the generator, how many lines are left, and the lines so far.
#[derive(Drop)]
pub struct Making {
    words: RandomWords,
    left: u32,
    text: Vec<u8>,
}

impl Model for Making {
    ghost use Rattle.ppp_trace.specs.MadeTrace.{Made};

    ghost Value = { Made };

    ghost view = { λ m. record { words = m.words; left = m.left; text = m.text.items } };
}

impl Making {
    ghost use Rattle.ppp_base.specs.RandomWords.{next_word};

    /// Nothing is made yet, and so many lines are wanted.
    pub fn new(alloc: Global, seed: u64, lines: u32) -> Making
        ensures { result ≡ record { words = seed; left = lines; text = [] } }
    {
        Making {
            words: RandomWords::new(seed),
            left: lines,
            text: Vec::new(alloc),
        }
    }

    /// How many lines are left.
    pub fn left(&self) -> u32
        ensures { result ≡ self.now.left }
    {
        self.left
    }

    /// The lines.
    pub fn into_text(self) -> Vec<u8>
        ensures { result.items ≡ self.text }
    {
        self.text
    }

    /// Draws a word.
    #[tactic(auto, unfolding(crate::specs::MadeTrace::after_word))]
    pub fn word(&mut self) -> u32
        ensures word { result ≡ next_word self.old.words }
        ensures made { self.new ≡ after_word self.old }
    {
        self.words.next_u32()
    }

    // Adds a line, where one is left.
    fn say(&mut self, line: &[u8]) -> Result<(), NoMemory>
        ensures { OnOk result (self.new ≡ said line.now self.old) }
    {
        if self.left == 0 {
            return Ok(());
        }
        self.text.extend_from_slice(line)?;
        self.text.push(b'\n')?;
        self.left -= 1;
        Ok(())
    }

    // Adds the line of a link.
    fn link_says(&mut self, alloc: Global, link: u8, words: &[u8]) -> Result<(), NoMemory>
        ensures { OnOk result (self.new ≡ said (link_line link words.now) self.old) }
    {
        let line = with_number(alloc, b"", u64::from(link), words)?;
        self.say(line.as_slice())
    }

    // Adds the line of octets that come from a link's line.
    fn link_hears(&mut self, alloc: Global, link: u8, octets: &[u8]) -> Result<(), NoMemory>
        ensures { OnOk result (self.new ≡ said (hears link octets.now) self.old) }
    {
        let words = with_number(alloc, b"", u64::from(link), b" rx ")?;
        let line = with_hex(words, octets)?;
        self.say(line.as_slice())
    }

    // Adds the two lines of octets that the next word cuts.
    #[tactic(auto, unfolding(crate::specs::MadeTrace::in_pieces))]
    fn hear_in_pieces(&mut self, alloc: Global, link: u8, octets: &[u8]) -> Result<(), NoMemory>
        requires { 2 ≤ length octets.now }
        ensures { OnOk result (self.new ≡ in_pieces link octets.now self.old) }
    {
        let word = self.word() as usize;
        let cut = 1 + word % (octets.len() - 1);
        self.link_hears(alloc, link, &octets[..cut])?;
        self.link_hears(alloc, link, &octets[cut..])
    }

    // Adds the two lines of a frame.
    #[tactic(auto, using(crate::proofs::MadeLemmas::encoding_long))]
    fn hear(
        &mut self,
        alloc: Global,
        link: u8,
        protocol: u16,
        information: &[u8],
    ) -> Result<(), NoMemory>
        ensures { OnOk result (self.new ≡ heard link protocol information.now self.old) }
    {
        let frame = framed(alloc, protocol, information)?;
        self.hear_in_pieces(alloc, link, frame.as_slice())
    }

    // Draws a word, and appends its octets.
    #[tactic(auto, unfolding(crate::specs::MadeTrace::after_word, crate::specs::MadeTrace::word_octets))]
    fn add_word(&mut self, octets: &mut Octets<20>)
        requires { length octets.old ≤ 16 }
        ensures octets { octets.new ≡ octets.old ++ word_octets self.old }
        ensures longer { length octets.new ≡ length octets.old + 4 }
        ensures made { self.new ≡ after_word self.old }
    {
        octets.append(self.words.next_u32().to_be_bytes().as_slice());
    }

    // Draws the octets of five words.
    fn draw(&mut self) -> Octets<20>
        ensures octets { result ≡ five_words self.old }
        ensures made { self.new ≡ drawn self.old }
    {
        let mut octets = Octets::new();
        self.add_word(&mut octets);
        self.add_word(&mut octets);
        self.add_word(&mut octets);
        self.add_word(&mut octets);
        self.add_word(&mut octets);
        octets
    }

    // Adds the end of a script of the link's unit.
    fn script_ends(&mut self, alloc: Global, link: u8, job: u32) -> Result<(), NoMemory>
        requires { 1 ≤ link }
        ensures { OnOk result (self.new ≡ said (script_ends link job) self.old) }
    {
        let unit = with_number(alloc, b"unit ", u64::from(link - 1), b" hook ")?;
        let line = with_number(alloc, unit.as_slice(), u64::from(job), b" exit 0")?;
        self.say(line.as_slice())
    }

    // Adds the line of a datagram for the link's peer.
    fn packet(&mut self, alloc: Global, link: u8, octets: &[u8]) -> Result<(), NoMemory>
        requires { 1 ≤ link }
        ensures { OnOk result (self.new ≡ said (packet_line link octets.now) self.old) }
    {
        let words = with_number(alloc, b"packet ", u64::from(link - 1), b" ")?;
        let line = with_hex(words, octets)?;
        self.say(line.as_slice())
    }

    // Adds a drawn datagram for the link's peer.
    fn live_packet(&mut self, alloc: Global, link: u8) -> Result<(), NoMemory>
        requires { 1 ≤ link }
        ensures { OnOk result (self.new ≡ said (packet_line link (five_words self.old)) (drawn self.old)) }
    {
        let octets = self.draw();
        self.packet(alloc, link, octets.as_slice())
    }

    // Adds a drawn datagram of the link's peer.
    fn live_datagram(&mut self, alloc: Global, link: u8) -> Result<(), NoMemory>
        ensures { OnOk result (self.new ≡ heard link 0x21 (five_words self.old) (drawn self.old)) }
    {
        let octets = self.draw();
        self.hear(alloc, link, protocol::IP, octets.as_slice())
    }

    // Adds the line of carrying a link.
    fn carry(&mut self, alloc: Global, link: u8) -> Result<(), NoMemory>
        ensures { OnOk result (self.new ≡ said (codes "carry " ++ (decimal link ++ [])) self.old) }
    {
        let line = with_number(alloc, b"carry ", u64::from(link), b"")?;
        self.say(line.as_slice())
    }

    /// Adds what a link does in this step of this life.
    #[tactic(auto, unfolding(crate::specs::MadeTrace::lived))]
    pub fn live(
        &mut self,
        alloc: Global,
        link: u8,
        life: u32,
        step: LifeStep,
    ) -> Result<(), NoMemory>
        requires link { 1 ≤ link }
        requires life { (1 ≤ life) × (life < 2 ^ 31) }
        ensures { OnOk result (self.new ≡ lived link life step self.old) }
    {
        let ask = [1, 1, 0, 10, 3, 6, 10, 0, link, 2];
        let agree = [2, 1, 0, 10, 3, 6, 10, 0, link, 1];
        match step {
            LifeStep::Begin => self.link_says(alloc, link, b" begin"),
            LifeStep::DialOk => self.link_says(alloc, link, b" dial ok"),
            LifeStep::Sent => self.link_says(alloc, link, b" sent ok"),
            LifeStep::LineEnd => self.link_says(alloc, link, b" line end"),
            LifeStep::Carry => self.carry(alloc, link),
            LifeStep::FirstEnds => self.script_ends(alloc, link, 2 * life - 1),
            LifeStep::SecondEnds => self.script_ends(alloc, link, 2 * life),
            LifeStep::Packet => self.live_packet(alloc, link),
            LifeStep::Datagram => self.live_datagram(alloc, link),
            LifeStep::AsksLcp => self.hear(alloc, link, protocol::LCP, &[1, 1, 0, 4]),
            LifeStep::AcksLcp => self.hear(alloc, link, protocol::LCP, &LCP_ACK),
            LifeStep::AsksIp => self.hear(alloc, link, protocol::IPCP, &ask),
            LifeStep::AcksIp => self.hear(alloc, link, protocol::IPCP, &agree),
            LifeStep::Terminates => self.hear(alloc, link, protocol::LCP, &[5, 7, 0, 4]),
        }
    }
}
