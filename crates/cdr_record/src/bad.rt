//! What is wrong with a list of bytes that begins with no record.

/// Why no record can stand where one has to begin.
#[derive(Clone, Copy, PartialEq, Eq, Hash, Debug)]
pub enum BadWhy {
    /// The order octet is above 3.
    Order,
    /// The payload's length is out of range: from 20 to 65,556 bytes in version 1, and from 24 to
    /// 65,560 in version 2.
    Length,
    /// The message is longer than the payload has room for.
    Message,
}

/// A bad record in a stream.
#[derive(Clone, Copy, PartialEq, Eq, Hash, Debug)]
pub struct Bad {
    /// How many bytes of the stream stand before its first byte; `u64::MAX` if there are more
    /// than that.
    pub at: u64,
    /// What is wrong with it.
    pub why: BadWhy,
}
