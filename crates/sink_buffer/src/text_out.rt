//! What texts are put into.
ghost use Rattle.std.specs.Prelude.{List, ℕ};
ghost use Rattle.sink_buffer.specs.Texts.{Puts};

/// What texts are put into, piece by piece.
pub trait TextOut {
    /// From where on a text is counted.
    ghost Since: { Type 0 };

    /// The text that was put since then.
    ghost stands: { Since → Self → List ℕ → Type 0 };

    /// Puts bytes after what was put before.
    fn put(&mut self, bytes: &[u8])
        ensures { Puts stands self.old bytes.now self.new };
}
