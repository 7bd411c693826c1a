//! The task that makes the texts of log records.
ghost use Rattle.std.specs.Prelude.{◌≡◌, [], ◌∷◌, IfOk, map};
ghost use Rattle.std.specs.Option.{option_map};
ghost use Rattle.message_block.specs.Messages.{bytes_of, bytes_in};
ghost use Rattle.cdr_record.specs.Decoding as D;
ghost use Rattle.module_stream.specs.Tasks.{formatted, text_block};

use crate::messages::Messages;
use crate::passed::Passed;
use crate::task::Task;
use crate::text::text_block;
use cdr_record::only_record;
use ev_types::NoMemory;
use message_block::{Block, Message};
use std::alloc::Global;
use std::mem;

/// A task that gives, for a message whose bytes spell a log record, the record's text (`SEC,USEC
/// PID NAME: MESSAGE`) as one block without space and with the same priority, and any other message
/// as it is.
#[derive(Drop)]
pub struct FormatTask {
    alloc: Global,
    // The memory of the next text: that of the bytes of the record before.
    memory: Vec<u8>,
}

impl FormatTask {
    /// The task. It takes no memory.
    pub fn new(alloc: Global) -> FormatTask {
        FormatTask {
            alloc,
            memory: Vec::new(alloc),
        }
    }
}

impl Task for FormatTask {
    ghost gives = { λ _ messages. map formatted messages };

    fn put(&mut self, m: Message) -> Result<Messages, NoMemory> {
        self.pass(m)?.into_messages(self.alloc)
    }

    fn finish(&mut self) -> Result<Messages, NoMemory> {
        Ok(Messages::new(Vec::new(self.alloc)))
    }

    fn pass(&mut self, m: Message) -> Result<Passed, NoMemory> {
        Ok(Passed::One(self.format(m)?))
    }
}

impl FormatTask {
    /// The text of a message that is a record, and any other message as it is.
    fn format(&mut self, message: Message) -> Result<Message, NoMemory>
        ensures { IfOk result (λ text. text ≡ formatted message) }
    {
        match self.text_of_message(&message)? {
            Some(block) => Ok(self.replace(message, block)),
            None => Ok(message),
        }
    }

    /// The block of the text of the record that a message's bytes spell, if they do.
    fn text_of_message(&mut self, message: &Message) -> Result<Option<Block>, NoMemory>
        ensures { IfOk result (λ text. text ≡ option_map text_block
            (D.only_record (bytes_of message.now))) }
    {
        match message.blocks() {
            [only] => self.text_of(only.bytes()),
            blocks => {
                let bytes = joined(self.alloc, blocks)?;
                self.text_of(&bytes)
            }
        }
    }

    /// The block of the text of the record that bytes spell, if they do. Nothing of the record is
    /// copied but into the text.
    fn text_of(&mut self, bytes: &[u8]) -> Result<Option<Block>, NoMemory>
        ensures { IfOk result (λ text. text ≡ option_map text_block (D.only_record bytes.now)) }
    {
        match only_record(bytes) {
            Some(entry) => Ok(Some(text_block(self.take_memory(), entry)?)),
            None => Ok(None),
        }
    }

    /// The message with a block in the place of its own, whose memory is kept for the next text.
    fn replace(&mut self, message: Message, block: Block) -> Message
        ensures { result ≡ record { priority = message.priority; blocks = block ∷ [] } }
    {
        let mut message = message;
        self.memory = message.put_alone(block);
        message
    }

    fn take_memory(&mut self) -> Vec<u8> {
        mem::replace(&mut self.memory, Vec::new(self.alloc))
    }
}

/// The bytes of blocks.
fn joined(alloc: Global, blocks: &[Block]) -> Result<Vec<u8>, NoMemory>
    ensures { IfOk result (λ bytes. bytes.items ≡ bytes_in blocks.now) }
{
    let mut bytes = Vec::new(alloc);
    for block in blocks {
        bytes.extend_from_slice(block.bytes())?;
    }
    Ok(bytes)
}
