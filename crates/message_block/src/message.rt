//! Messages of blocks.
ghost use Rattle.std.specs.Prelude.{◌≡◌, ◌≤◌, ◌<◌, ◌^◌, [], ◌∷◌, ◌++◌, length, vec_len, OnOk};
ghost use Rattle.std.specs.Prelude.{OnErr, IfOk, IfErr};
ghost use Rattle.message_block.specs.Messages.{block_of, bytes_of};

use crate::block::Block;
use ev_types::NoMemory;
use std::alloc::Global;
use std::marker::Model;
use std::mem;

/// For how many blocks a new message has places: its own, and one that is added.
const USUAL_BLOCKS: usize = 2;

/// A message: a priority, and one to 1,024 blocks in order (ACE's chain of `ACE_Message_Block`s by
/// `cont`). Its bytes are those of its blocks, joined.
#[derive(Drop)]
pub struct Message {
    // In a box, so that a message that is passed on moves as a pointer.
    content: Box<Content>,
}

/// What a message has.
#[derive(Drop)]
struct Content {
    blocks: Vec<Block>,
    priority: u32,
    total: u64,
    // A block that was taken off, whose memory is used for the next that is added.
    spare: Option<Block>,
}

impl Content {
    /// Takes all blocks off but the first, of which the last is kept as the spare one.
    fn keep_first(&mut self)
        requires { 1 ≤ vec_len self.old.blocks }
        ensures one { vec_len self.new.blocks ≡ 1 }
        ensures priority { self.new.priority ≡ self.old.priority }
    {
        if self.blocks.len() > 1 {
            self.spare = self.blocks.pop();
            self.blocks.truncate(1);
        }
    }
}

impl Model for Message {
    ghost use Rattle.std.specs.Prelude.{◌≡◌, ◌*◌, ◌≤◌, length, vec_len};
    ghost use Rattle.message_block.specs.Messages.{MessageState, bytes_in};

    ghost Value = { MessageState };

    ghost view = { λ m. record {
      priority = m.content.value.priority;
      blocks = m.content.value.blocks.items;
    } };

    ghost invariant = { λ m. (m.content.value.total ≡ length
        (bytes_in m.content.value.blocks.items))
        × (m.content.value.total ≤ 1048576 * vec_len m.content.value.blocks)
        × (1 ≤ vec_len m.content.value.blocks) × (vec_len m.content.value.blocks ≤ 1024) };
}

impl Message {
    /// A message of one block. `NoMemory` gives the block back.
    pub fn new(alloc: Global, first: Block, priority: u32) -> Result<Message, (Block, NoMemory)>
        ensures made { IfOk result (λ message. message ≡ record {
          priority = priority;
          blocks = first ∷ [];
        }) }
        ensures refused { IfErr result (λ refusal. refusal.0 ≡ first) }
    {
        let total = first.length() as u64;
        let blocks = match Vec::with_capacity(alloc, USUAL_BLOCKS) {
            Ok(blocks) => blocks,
            Err(_) => return Err((first, NoMemory)),
        };
        let content = Content {
            blocks,
            priority,
            total,
            spare: None,
        };
        let mut content = match Box::new(alloc, content) {
            Ok(content) => content,
            Err(_) => return Err((first, NoMemory)),
        };
        match content.blocks.push(first) {
            Ok(()) => Ok(Message { content }),
            Err(refused) => Err((refused.value, NoMemory)),
        }
    }

    /// Puts a block after the others, of which there are fewer than 1,024. `NoMemory` gives it
    /// back, and the message is as before.
    pub fn cont(&mut self, b: Block) -> Result<(), (Block, NoMemory)>
        requires { length self.old.blocks < 1024 }
        ensures continued { OnOk result (self.new ≡ record self.old {
          blocks = self.old.blocks ++ b ∷ [];
        }) }
        ensures refused { IfErr result (λ refusal. (refusal.0 ≡ b) × (self.new ≡ self.old)) }
    {
        let length = b.length() as u64;
        match self.content.blocks.push(b) {
            Ok(()) => {
                self.content.total += length;
                Ok(())
            }
            Err(refused) => Err((refused.value, NoMemory)),
        }
    }

    /// Puts a block of these bytes, at most 1,048,576, without space after the others, of which
    /// there are fewer than 1,024. After `NoMemory` the message is as before.
    pub fn cont_bytes(&mut self, alloc: Global, bytes: &[u8]) -> Result<(), NoMemory>
        requires blocks { length self.old.blocks < 1024 }
        requires bytes { length bytes.now ≤ 1048576 }
        ensures continued { OnOk result (self.new ≡ record self.old {
          blocks = self.old.blocks ++ block_of bytes.now ∷ [];
        }) }
        ensures unchanged { OnErr result (self.new ≡ self.old) }
    {
        let mut memory = self.spare_memory(alloc);
        memory.extend_from_slice(bytes)?;
        match self.cont(Block::from_vec(memory)) {
            Ok(()) => Ok(()),
            Err((_, refused)) => Err(refused),
        }
    }

    /// The memory of the block that was taken off, or none.
    fn spare_memory(&mut self, alloc: Global) -> Vec<u8>
        ensures none { result.items ≡ [] }
        ensures unchanged { self.new ≡ self.old }
    {
        match mem::replace(&mut self.content.spare, None) {
            Some(block) => block.into_memory(),
            None => Vec::new(alloc),
        }
    }

    /// Puts a block in the place of all, and gives the memory of the first that was there, without
    /// its bytes.
    pub fn put_alone(&mut self, b: Block) -> Vec<u8>
        ensures alone { self.new ≡ record self.old { blocks = b ∷ [] } }
        ensures memory { result.items ≡ [] }
    {
        self.content.keep_first();
        self.content.total = b.length() as u64;
        mem::replace(&mut self.content.blocks[0], b).into_memory()
    }

    /// Makes it a message of this priority and of one block of these bytes, at most 1,048,576,
    /// without space. The memory that it has is used again. After `NoMemory` it has one block
    /// without bytes.
    pub fn rewrite(&mut self, bytes: &[u8], priority: u32) -> Result<(), NoMemory>
        requires { length bytes.now ≤ 1048576 }
        ensures rewritten { OnOk result (self.new ≡ record {
          priority = priority;
          blocks = block_of bytes.now ∷ [];
        }) }
    {
        let none = Vec::new(*self.content.blocks.allocator());
        let mut memory = self.put_alone(Block::from_vec(none));
        memory.extend_from_slice(bytes)?;
        let _ = self.put_alone(Block::from_vec(memory));
        self.content.priority = priority;
        Ok(())
    }

    /// How many bytes the message has, at most 2^30.
    pub fn total_length(&self) -> u64
        ensures length { result ≡ length (bytes_of self.now) }
        ensures within { result ≤ 2 ^ 30 }
    {
        self.content.total
    }

    /// The priority: a higher number goes first.
    pub fn priority(&self) -> u32
        ensures { result ≡ self.now.priority }
    {
        self.content.priority
    }

    /// The blocks, one to 1,024.
    pub fn blocks(&self) -> &[Block]
        ensures blocks { result.now ≡ self.now.blocks }
        ensures some { 1 ≤ length result.now }
        ensures within { length result.now ≤ 1024 }
    {
        self.content.blocks.as_slice()
    }
}
