//! A text that is written whole into a sink that is lent.
ghost use Rattle.std.specs.Prelude.{◌≡◌, List, [], ℕ, not};
ghost use Rattle.ev_base.specs.Sink.{SinkFacts};
ghost use Rattle.sink_buffer.specs.Texts.{Puts};
ghost use Rattle.sink_buffer.specs.Written.{WritesAll};
ghost use Rattle.journal_text.specs.Lent.{Gathers};

use crate::lent::buffer::LentBuffer;
use ev_base::Sink;
use sink_buffer::TextOut;

/// A text that is put piece by piece.
pub trait PutText {
    /// The text.
    ghost text: { Self → List ℕ };

    /// Puts the text.
    fn put_into<T: TextOut>(&self, out: &mut T)
        ensures { Puts T.stands out.old (text self.now) out.new };
}

/// Writes a text, and tells whether no write failed. Pieces are gathered, so that a write has 8,192
/// bytes if the text has as many. It takes no memory. After a failed write nothing is written.
pub fn write_text<K: Sink, P: PutText>(sink: &mut K, text: &P) -> bool
    ensures { WritesAll (K.facts sink.old) (P.text text.now) result (K.facts sink.new) }
{
    let mut buffer = LentBuffer::new(sink);
    put_whole(&mut buffer, text);
    !buffer.is_broken()
}

/// Puts a text into a buffer into which nothing was put, and writes all that is held.
fn put_whole<K: Sink, P: PutText>(buffer: &mut LentBuffer<K>, text: &P)
    requires { (start : SinkFacts) × Gathers K.facts start buffer.old [] }
    ensures same_reference { buffer.new.sink.ghost_name ≡ buffer.old.sink.ghost_name }
    ensures text { (start : SinkFacts) → Gathers K.facts start buffer.old []
        → WritesAll start (P.text text.now) (not buffer.new.broken) (K.facts buffer.new.sink.now) }
{
    text.put_into(buffer);
    buffer.flush();
}
