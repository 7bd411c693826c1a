//! Bytes that are gathered in a fixed place.
ghost use Rattle.std.specs.Prelude.{◌≡◌, ◌≤◌, ◌+◌, [], ◌++◌, length, take};

/// How many bytes are gathered before a write: 8 KiB.
pub(crate) const SIZE: usize = 8_192;

/// At most 8,192 bytes in a fixed place.
#[derive(Drop)]
pub(crate) struct HeldBytes {
    bytes: [u8; SIZE],
    count: usize,
    ghost within: { count ≤ 8192 },
}

impl HeldBytes {
    ghost use Rattle.journal_text.specs.Held.{held_in};

    pub(crate) fn none() -> HeldBytes
        ensures held { held_in result ≡ [] }
        ensures count { result.count ≡ 0 }
    {
        HeldBytes {
            bytes: [0; SIZE],
            count: 0,
        }
    }

    /// How many more bytes there is room for.
    pub(crate) fn room(&self) -> usize
        ensures { result + self.now.count ≡ 8192 }
    {
        SIZE - self.count
    }

    /// The bytes.
    pub(crate) fn as_slice(&self) -> &[u8]
        ensures { result.now ≡ held_in self.now }
    {
        &self.bytes[..self.count]
    }

    /// Copies bytes for which there is room.
    pub(crate) fn add(&mut self, bytes: &[u8])
        requires { self.old.count + length bytes.now ≤ 8192 }
        ensures { held_in self.new ≡ held_in self.old ++ bytes.now }
    {
        let end = self.count + bytes.len();
        self.bytes[self.count..end].copy_from_slice(bytes);
        self.count = end;
    }

    /// Forgets the bytes.
    pub(crate) fn clear(&mut self)
        ensures held { held_in self.new ≡ [] }
        ensures count { self.new.count ≡ 0 }
    {
        self.count = 0;
    }
}
