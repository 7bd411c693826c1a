//! The totals of a run.
ghost use Rattle.std.specs.Prelude.{[]};
ghost use Rattle.sink_buffer.specs.Texts.{Puts};
ghost use Rattle.sink_buffer.specs.Written.{WritesAll};
ghost use Rattle.cmd_forward.specs.Statuses.{line_of, totals_text};

use ev_base::Sink;
use log_lines::put_unsigned;
use sink_buffer::{SinkBuffer, TextOut};

/// Writes the two lines `records R` and `bytes T`, and gives the sink back, and whether no write
/// failed: then it took both, and else a front of them.
pub(crate) fn write_totals<K: Sink>(output: K, records: u64, bytes: u64) -> (K, bool)
    ensures { WritesAll (K.facts output) (totals_text records bytes) result.1 (K.facts result.0) }
{
    let mut text = SinkBuffer::new(output);
    put_line(&mut text, b"records ", records);
    put_line(&mut text, b"bytes ", bytes);
    text.finish()
}

// Puts a line of a word and a number.
fn put_line<T: TextOut>(out: &mut T, word: &[u8], number: u64)
    ensures { Puts T.stands out.old (line_of word.now number) out.new }
{
    out.put(word);
    put_unsigned(out, number);
    out.put(b"\n");
}
