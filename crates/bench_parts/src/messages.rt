//! The messages that are passed on.

use ev_types::NoMemory;
use message_block::{Block, Message};
use std::alloc::Global;

/// A message of one block with 100 bytes.
pub fn message_of(alloc: Global) -> Result<Message, NoMemory> {
    let mut block = Block::new(alloc, 100)?;
    block.write(&[7; 100]).unwrap();
    match Message::new(alloc, block, 0) {
        Ok(message) => Ok(message),
        Err((_, refused)) => Err(refused),
    }
}
