//! The watch that writes the lines of connections.
ghost use Rattle.aio_lines.specs.Lines.{entry_lines};

use crate::line::put_entry_lines;
use line_sink::{JournalLines, LineSink};
use proactor::AioNote;
use reactor_model::Entry;
use sink_buffer::TextOut;

/// The lines of an echo service made of operations: one for each connection that was closed or
/// refused.
#[derive(Clone, Copy, PartialEq, Eq, Debug)]
pub struct AioLines;

/// A watch that writes the line of each connection as the entry is appended that closed or refused
/// it, in one write. It holds nothing back, takes no memory, and writes nothing more once a write
/// failed.
pub type ConnectionLines<K> = LineSink<K, AioLines>;

impl JournalLines for AioLines {
    type Note = AioNote;

    ghost lines = { entry_lines };

    fn put<T: TextOut>(out: &mut T, entry: &Entry<AioNote>) {
        put_entry_lines(out, entry);
    }
}
