ghost use Rattle.ppp_option_words.specs.FaultText.{fault_text, said_of};
ghost use Rattle.ppp_outside.specs.Writing.{Puts};

use crate::fault::OptionsFault;
use crate::fault_word::FaultWord;
use ppp_outside::{Sink, TextWriter};

// Puts what is said, and the word that it is said of, as the end of a line.
fn put_said<O: Sink>(writer: &mut TextWriter, output: &mut O, said: &[u8], word: &FaultWord)
    ensures { Puts writer.old writer.new (O.state output.old) (O.state output.new) (said_of said.now word.now) }
{
    writer.put(output, said);
    writer.put(output, word.as_slice());
    writer.put(output, b"\n");
}

// Puts the line of two words that both stand for one link.
fn put_clash<O: Sink>(writer: &mut TextWriter, output: &mut O, word: &FaultWord, other: &FaultWord)
    ensures { Puts writer.old writer.new (O.state output.old) (O.state output.new) (fault_text (OptionsFault.Clash word.now other.now)) }
{
    writer.put(output, b"pppd: ");
    writer.put(output, word.as_slice());
    put_said(writer, output, b" and ", other);
}

// Puts the line of a quote that is open in a file.
fn put_quote<O: Sink>(writer: &mut TextWriter, output: &mut O, name: &FaultWord, line: usize)
    ensures { Puts writer.old writer.new (O.state output.old) (O.state output.new) (fault_text (OptionsFault.BadQuote name.now line)) }
{
    writer.put(output, b"pppd: open quote in ");
    writer.put(output, name.as_slice());
    writer.put(output, b" line ");
    writer.put_number(output, line as u64);
    writer.put(output, b"\n");
}

impl OptionsFault {
    /// Puts the line that tells the fault.
    pub fn put<O: Sink>(&self, writer: &mut TextWriter, output: &mut O)
        ensures { Puts writer.old writer.new (O.state output.old) (O.state output.new) (fault_text self.now) }
    {
        match self {
            OptionsFault::Unknown(word) => put_said(writer, output, b"pppd: unknown option ", word),
            OptionsFault::Missing(word) => put_said(writer, output, b"pppd: missing ", word),
            OptionsFault::BadNumber(word) => put_said(writer, output, b"pppd: bad number ", word),
            OptionsFault::OutOfRange(word) => put_said(
                writer,
                output,
                b"pppd: out of range ",
                word,
            ),
            OptionsFault::Clash(word, other) => put_clash(writer, output, word, other),
            OptionsFault::Depth(name) => put_said(
                writer,
                output,
                b"pppd: files too deep at ",
                name,
            ),
            OptionsFault::BadQuote(name, line) => put_quote(writer, output, name, *line),
            OptionsFault::TooMany(_) => writer.put(output, b"pppd: too many links\n"),
            OptionsFault::FileFault(name) => put_said(writer, output, b"pppd: cannot read ", name),
            OptionsFault::NoFile(name) => put_said(writer, output, b"pppd: no file ", name),
            OptionsFault::BadScript(word) => put_said(
                writer,
                output,
                b"pppd: bad script at ",
                word,
            ),
            OptionsFault::NoMemory => writer.put(output, b"pppd: no memory\n"),
        }
    }
}
