//! A short text in a fixed place.
ghost use Rattle.std.specs.Prelude.{◌≡◌, ◌≤◌, ◌<◌, ◌++◌, ℕ, List, [], MatchOption, length};

use crate::TextOut;

/// How many bytes a short text has at most.
const MOST: usize = 512;

/// A text of at most 512 bytes, in a fixed place: so a short line is written by one call. It takes
/// no memory. If more is put it is overfull, and has no text.
#[derive(Drop)]
pub struct ShortText {
    bytes: [u8; MOST],
    length: usize,
    overfull: bool,
    ghost within: { length ≤ 512 },
}

impl ShortText {
    ghost use Rattle.sink_buffer.specs.Short.{HoldsText};

    /// A text into which nothing was put.
    pub fn new() -> ShortText
        ensures { HoldsText [] result [] }
    {
        ShortText {
            bytes: [0; MOST],
            length: 0,
            overfull: false,
        }
    }

    /// All that was put, or None if that was too long.
    pub fn text(&self) -> Option<&[u8]>
        ensures { (first put : List ℕ) → HoldsText first self.now put
            → MatchOption result (512 < length (first ++ put)) (λ text. text.now ≡ first ++ put) }
    {
        if self.overfull {
            None
        } else {
            Some(&self.bytes[..self.length])
        }
    }
}

impl TextOut for ShortText {
    ghost use Rattle.sink_buffer.specs.Short.{HoldsText};

    ghost Since = { List ℕ };

    ghost stands = { HoldsText };

    /// Adds bytes to the text if there is room for them.
    fn put(&mut self, bytes: &[u8]) {
        if self.overfull || bytes.len() > MOST - self.length {
            self.overfull = true;
            return;
        }
        let end = self.length + bytes.len();
        self.bytes[self.length..end].copy_from_slice(bytes);
        self.length = end;
    }
}
