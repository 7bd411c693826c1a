//! Where bytes go.
ghost use Rattle.std.specs.Prelude.{◌<◌, length};
ghost use Rattle.ev_base.specs.Sink.{SinkFacts, Writes};

/// What a write did.
#[derive(Clone, Copy, PartialEq, Eq, Debug)]
pub enum Wrote {
    /// So many bytes from the front of the piece, at least one, were taken.
    Bytes(usize),
    /// The write failed and nothing was taken; it was counted once.
    Failed,
}

/// A sink of bytes. It counts the writes that failed, and if it tells it, it has the text of all
/// that it took.
pub trait Sink {
    /// What contracts see of a sink.
    ghost facts: { Self → SinkFacts };

    /// Writes a piece that is not empty. `Bytes(n)` has n from 1 to the piece's length. `Failed`
    /// comes only if the count of faults is one more: a sink that takes nothing is at fault.
    fn write(&mut self, piece: &[u8]) -> Wrote
        requires { 0 < length piece.now }
        ensures { Writes (facts self.old) piece.now result (facts self.new) };
}
