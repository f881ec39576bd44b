ghost use Rattle.std.specs.Prelude.{◌≡◌, length};
ghost use Rattle.std.specs.Io.KnownBytes.{Consumes, IsAtEnd};
ghost use Rattle.ppp_outside.specs.Counts.{CountsFault, raised};
ghost use Rattle.ppp_outside.specs.Source.{FitsBuffer, SourceState, failed, given};

/// What a read answers.
#[derive(Clone, Copy, Debug, PartialEq, Eq)]
pub enum Got {
    /// So many octets stand at the front of the buffer.
    Got(usize),
    /// Nothing is left.
    End,
    /// The outside failed. Nothing was given.
    Failed,
}

/// Where octets come from.
pub trait Source {
    /// What is left, where this source tells it, how many octets it has given, and how often it has failed.
    ghost state: { Self → SourceState };

    /// Reads octets into the front of the buffer: as many as are there at once, and at least one where the
    /// buffer isn't empty.
    fn read(&mut self, buf: &mut [u8]) -> Got
        ensures fits { FitsBuffer result buf.new }
        ensures left { Consumes (state self.old).left (state self.new).left (given result buf.new) }
        ensures end { result ≡ Got.End → IsAtEnd (state self.new).left }
        ensures taken { (state self.new).taken ≡ raised (state self.old).taken (length (given result buf.new)) }
        ensures faults { CountsFault (failed result) (state self.old).faults (state self.new).faults };
}
