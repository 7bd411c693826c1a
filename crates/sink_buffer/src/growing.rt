//! A text in memory that grows.
ghost use Rattle.std.specs.Prelude.{◌≡◌, ◌≤◌, [], ℕ, List, IfOk, length};

use crate::TextOut;
use ev_base::NoMemory;

/// A text that grows in memory as it is put, up to a limit. It is broken if there was no memory
/// for it, or if it would be longer.
#[derive(Drop)]
pub struct GrowingText {
    bytes: Vec<u8>,
    limit: usize,
    broken: bool,
    ghost within: { length bytes.items ≤ limit },
}

impl GrowingText {
    ghost use Rattle.sink_buffer.specs.Growing.{Grows};

    /// The empty text, in this memory, of at most `limit` bytes.
    pub fn new(memory: Vec<u8>, limit: usize) -> GrowingText
        requires { memory.items ≡ [] }
        ensures { Grows limit result [] }
    {
        GrowingText {
            bytes: memory,
            limit,
            broken: false,
        }
    }

    /// The text that was put, unless it is broken.
    pub fn into_bytes(self) -> Result<Vec<u8>, NoMemory>
        ensures text { (limit : ℕ) (text : List ℕ) → Grows limit self text
            → IfOk result (λ bytes. bytes.items ≡ text) }
        ensures within { (limit : ℕ) (text : List ℕ) → Grows limit self text
            → IfOk result (λ bytes. length bytes.items ≤ limit) }
    {
        if self.broken {
            return Err(NoMemory);
        }
        Ok(self.bytes)
    }
}

impl TextOut for GrowingText {
    ghost use Rattle.sink_buffer.specs.Growing.{Grows};

    ghost Since = { ℕ };

    ghost stands = { Grows };

    fn put(&mut self, bytes: &[u8]) {
        if !self.broken
            && bytes.len() <= self.limit - self.bytes.len()
            && self.bytes.extend_from_slice(bytes).is_ok()
        {
            return;
        }
        self.broken = true;
    }
}
