//! Where bytes come from.
ghost use Rattle.std.specs.Prelude.{◌<◌, length};
ghost use Rattle.ev_base.specs.Source.{SourceFacts, Reads};

/// What a read gave.
#[derive(Clone, Copy, PartialEq, Eq, Debug)]
pub enum Got {
    /// So many bytes, at least one, now stand at the front of the buffer.
    Bytes(usize),
    /// Nothing is there now; more may come. A net that watches the end reports it again once more
    /// came.
    Pause,
    /// The end of the input, which each later read answers again.
    Over,
    /// The read failed, and the count of faults rose.
    Failed,
}

/// A source of bytes. It has a count of faults that never falls and a count of the bytes that it
/// gave, and if it tells them, the bytes that it has given and those that it has left.
pub trait Source {
    /// What contracts see of a source.
    ghost facts: { Self → SourceFacts };

    /// Reads into a buffer that is not empty. `Bytes(n)` has n from 1 to the buffer's length. A
    /// source never answers `Pause`. `Failed` comes only if the count of faults rose, and leaves
    /// the bytes as they were.
    fn read(&mut self, buf: &mut [u8]) -> Got
        requires { 0 < length buf.old }
        ensures { Reads (facts self.old) buf.new result (facts self.new) };
}
