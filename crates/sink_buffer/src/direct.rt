//! A sink that writes what is put at once.
ghost use Rattle.std.specs.Prelude.{◌≡◌, [], false};
ghost use Rattle.ev_base.specs.Sink.{SinkFacts};

use crate::TextOut;
use crate::buffer::write_all;
use ev_base::Sink;

/// A sink that writes what is put into it at once, in one write if the sink below takes all of
/// it, and in none if that is empty. It holds nothing back and takes no memory. Once a write
/// failed it writes nothing more.
#[derive(Drop)]
pub struct DirectSink<K> {
    output: K,
    broken: bool,
}

impl<K: Sink> DirectSink<K> {
    ghost use Rattle.sink_buffer.specs.Direct.{HasWritten, is_broken, output_of};

    /// A sink above this one, into which nothing was put.
    pub fn new(output: K) -> DirectSink<K>
        ensures text { HasWritten K.facts (K.facts output) result [] }
        ensures output { output_of result ≡ output }
        ensures broken { is_broken result ≡ false }
    {
        DirectSink {
            output,
            broken: false,
        }
    }

    /// Whether a write failed.
    pub fn is_broken(&self) -> bool
        ensures { result ≡ is_broken self.now }
    {
        self.broken
    }

    /// The sink below.
    pub fn into_output(self) -> K
        ensures { result ≡ output_of self }
    {
        self.output
    }
}

impl<K: Sink> TextOut for DirectSink<K> {
    ghost use Rattle.sink_buffer.specs.Direct.{HasWritten};

    ghost Since = { SinkFacts };

    ghost stands = { HasWritten K.facts };

    /// Writes bytes, unless a write failed before.
    fn put(&mut self, bytes: &[u8]) {
        if !self.broken {
            self.broken = !write_all(&mut self.output, bytes);
        }
    }
}
