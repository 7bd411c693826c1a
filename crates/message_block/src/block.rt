//! Blocks of bytes.
ghost use Rattle.std.specs.Prelude.{◌≡◌, ◌≤◌, ◌<◌, ◌+◌, ◌-◌, [], ◌++◌, length, drop, OnOk, OnErr};
ghost use Rattle.std.specs.Prelude.{IfOk, IfErr};

use ev_types::NoMemory;
use std::alloc::Global;
use std::marker::Model;

/// A block of so many bytes, with a read place and a write place (ACE's `ACE_Message_Block`). What
/// was written and not yet read stands between the two places; what is left of the block after the
/// write place is its space.
#[derive(Drop)]
pub struct Block {
    written: Vec<u8>,
    read: usize,
    size: usize,
}

impl Model for Block {
    ghost use Rattle.std.specs.Prelude.{◌-◌, ◌≤◌, drop, vec_len, vec_capacity};
    ghost use Rattle.message_block.specs.Messages.{BlockState};

    ghost Value = { BlockState };

    ghost view = { λ b. record {
      bytes = drop b.read b.written.items;
      space = b.size - vec_len b.written;
    } };

    ghost invariant = { λ b. (b.read ≤ vec_len b.written) × (vec_len b.written ≤ b.size)
        × (b.size ≤ vec_capacity b.written) × (b.size ≤ 1048576) };
}

/// A block has less space than the bytes that were to be written.
#[derive(Clone, Copy, PartialEq, Eq, Hash, Debug)]
pub struct NoSpace {
    /// The space that it has, in bytes.
    pub space: usize,
}

impl Block {
    /// A block of `size` bytes, at most 1,048,576, all of them space.
    pub fn new(alloc: Global, size: usize) -> Result<Block, NoMemory>
        requires { size ≤ 1048576 }
        ensures { IfOk result (λ block. block ≡ record { bytes = []; space = size }) }
    {
        let written = Vec::with_capacity(alloc, size)?;
        Ok(Block {
            written,
            read: 0,
            size,
        })
    }

    /// A block of these bytes, at most 1,048,576, without space. The vector is kept as it is.
    pub fn from_vec(bytes: Vec<u8>) -> Block
        requires { length bytes.items ≤ 1048576 }
        ensures { result ≡ record { bytes = bytes.items; space = 0 } }
    {
        let size = bytes.len();
        Block {
            written: bytes,
            read: 0,
            size,
        }
    }

    /// The memory of the block, without its bytes.
    pub fn into_memory(self) -> Vec<u8>
        ensures { result.items ≡ [] }
    {
        let mut memory = self.written;
        memory.clear();
        memory
    }

    /// Writes bytes at the write place. `NoSpace` comes exactly if they are more than the space;
    /// it tells the space, and the block is as before.
    pub fn write(&mut self, bytes: &[u8]) -> Result<(), NoSpace>
        ensures fits { OnOk result (length bytes.now ≤ self.old.space) }
        ensures written { OnOk result (self.new ≡ record {
          bytes = self.old.bytes ++ bytes.now;
          space = self.old.space - length bytes.now;
        }) }
        ensures too_many { IfErr result (λ refusal. (self.old.space < length bytes.now)
            × (refusal.space ≡ self.old.space)) }
        ensures unchanged { OnErr result (self.new ≡ self.old) }
    {
        let space = self.size - self.written.len();
        if bytes.len() > space {
            return Err(NoSpace { space });
        }
        self.written.extend_from_slice(bytes).unwrap();
        Ok(())
    }

    /// Moves the read place on by `n` bytes, at most the length.
    pub fn advance(&mut self, n: usize)
        requires { n ≤ length self.old.bytes }
        ensures { self.new ≡ record self.old { bytes = drop n self.old.bytes } }
    {
        self.read += n;
    }

    /// The bytes from the read place to the write place.
    pub fn bytes(&self) -> &[u8]
        ensures { result.now ≡ self.now.bytes }
    {
        &self.written[self.read..]
    }

    /// How many bytes stand between the read place and the write place.
    pub fn length(&self) -> usize
        ensures length { result ≡ length self.now.bytes }
        ensures within { result + self.now.space ≤ 1048576 }
    {
        self.written.len() - self.read
    }

    /// How many bytes can still be written.
    pub fn space(&self) -> usize
        ensures space { result ≡ self.now.space }
        ensures within { length self.now.bytes + result ≤ 1048576 }
    {
        self.size - self.written.len()
    }
}
