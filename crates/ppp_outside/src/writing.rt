ghost use Rattle.std.specs.Prelude.{◌≡◌, [], decimal, IfSome};
ghost use Rattle.std.specs.Bool.{OnFalse, OnTrue};
ghost use Rattle.ppp_outside.specs.Sink.{takes_text};
ghost use Rattle.ppp_outside.specs.Writing.{Breaks, Puts, Writes, fresh};

use crate::sink::{Sink, Took};
use arrayvec::ArrayVec;
use itoa::Buffer;
use std::marker::Model;

/// How many octets wait at most before they are written.
pub const PAGE: usize = 4096;

/// Writes the text, and answers whether the whole of it was taken.
pub fn write_whole<O: Sink>(output: &mut O, text: &[u8]) -> bool
    ensures whole { OnTrue result (Writes (O.state output.old) (O.state output.new) text.now) }
    ensures part { OnFalse result (Breaks (O.state output.old) (O.state output.new) text.now) }
    ensures as_told { IfSome (O.coming output.old) (λ set. result ≡ takes_text set text.now) }
{
    let mut at = 0;
    'writing: while at < text.len() {
        match output.write(&text[at..]) {
            Took::Took(count) => at += count,
            Took::Failed => return false,
        }
    }
    true
}

/// A text on its way to a sink, page by page. Once the sink has failed, nothing more is written.
#[derive(Drop)]
pub struct TextWriter {
    page: ArrayVec<u8, PAGE>,
    sound: bool,
}

impl Model for TextWriter {
    ghost use Rattle.ppp_outside.specs.Writing.{Pending};

    ghost Value = { Pending };

    ghost view = { λ w. record { waiting = w.page.items; sound = w.sound } };
}

impl TextWriter {
    /// Nothing waits.
    pub fn new() -> TextWriter
        ensures { result ≡ fresh }
    {
        TextWriter {
            page: ArrayVec::new(),
            sound: true,
        }
    }

    /// Puts a piece behind what waits, and writes where a page is full.
    pub fn put<O: Sink>(&mut self, output: &mut O, piece: &[u8])
        ensures { Puts self.old self.new (O.state output.old) (O.state output.new) piece.now }
    {
        match self.page.try_extend_from_slice(piece) {
            Ok(()) => {}
            Err(_) => {
                self.flush(output);
                self.put_on_empty(output, piece);
            }
        }
    }

    /// Puts a number in decimal digits.
    pub fn put_number<O: Sink>(&mut self, output: &mut O, number: u64)
        ensures { Puts self.old self.new (O.state output.old) (O.state output.new) (decimal number) }
    {
        let mut buffer = Buffer::new();
        self.put(output, buffer.format(number).as_bytes());
    }

    /// Writes what waits, and answers whether the sink took all that was put.
    pub fn finish<O: Sink>(mut self, output: &mut O) -> bool
        ensures { Puts self (record { waiting = []; sound = result }) (O.state output.old) (O.state output.new) [] }
    {
        self.flush(output);
        self.sound
    }

    // Writes what waits.
    fn flush<O: Sink>(&mut self, output: &mut O)
        ensures empty { self.new.waiting ≡ [] }
        ensures put { Puts self.old self.new (O.state output.old) (O.state output.new) [] }
    {
        if self.sound {
            self.sound = write_whole(output, self.page.as_slice());
        }
        self.page.clear();
    }

    // Puts a piece where nothing waits. A piece above a page goes to the sink at once.
    fn put_on_empty<O: Sink>(&mut self, output: &mut O, piece: &[u8])
        requires { self.old.waiting ≡ [] }
        ensures { Puts self.old self.new (O.state output.old) (O.state output.new) piece.now }
    {
        if self.page.try_extend_from_slice(piece).is_err() && self.sound {
            self.sound = write_whole(output, piece);
        }
    }
}
