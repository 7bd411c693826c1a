//! Texts of records as messages.
ghost use Rattle.std.specs.Prelude.{◌≡◌, ◌≤◌, IfOk, length};
ghost use Rattle.cdr_record.specs.Borrowed.{owned};
ghost use Rattle.module_stream.specs.Tasks.{text_block};
ghost use Rattle.log_lines.specs.Texts.{record_text};

use cdr_record::RecordRef;
use ev_types::NoMemory;
use log_lines::put_borrowed_text;
use message_block::Block;
use sink_buffer::GrowingText;

/// How many bytes a block has at most. The text of a record has fewer: a message of 65,536 bytes
/// has at most four times as many in its text.
const MOST_BYTES: usize = 1_048_576;

/// How many bytes stand before the message in the text of a record at most: `SEC,USEC PID NAME: `,
/// with numbers of at most 20, 11, 11 and 12 bytes.
const MOST_BEFORE_MESSAGE: usize = 59;

/// How many bytes the text of a record with this message has at most if no byte of it is
/// escaped: so many are put without growing.
fn room_for(message: &[u8]) -> usize {
    MOST_BEFORE_MESSAGE.saturating_add(message.len())
}

/// The text of a record, in memory that is used again.
fn text_of(memory: Vec<u8>, entry: RecordRef<'_>) -> Result<Vec<u8>, NoMemory>
    ensures text { IfOk result (λ text. text.items ≡ record_text (owned entry.entry)) }
    ensures within { IfOk result (λ text. length text.items ≤ 1048576) }
{
    let mut bytes = memory;
    bytes.clear();
    bytes.reserve(room_for(entry.text))?;
    let mut text = GrowingText::new(bytes, MOST_BYTES);
    put_borrowed_text(&mut text, entry);
    text.into_bytes()
}

/// A block of the text of a record, without space, in memory that is used again.
pub(crate) fn text_block(memory: Vec<u8>, entry: RecordRef<'_>) -> Result<Block, NoMemory>
    ensures { IfOk result (λ block. block ≡ text_block (owned entry.entry)) }
{
    Ok(Block::from_vec(text_of(memory, entry)?))
}
