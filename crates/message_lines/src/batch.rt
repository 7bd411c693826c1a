//! Messages that go through a line together.
ghost use Rattle.std.specs.Prelude.{◌≡◌, ◌≤◌, vec_len};

use message_block::Message;

/// How many messages go through a line together at most.
pub const MOST_TOGETHER: usize = 256;

/// Messages in order, at most 256.
#[derive(Drop)]
pub struct Batch {
    pub messages: Vec<Message>,
    ghost within: { vec_len messages ≤ 256 },
}

impl Batch {
    /// The messages of a vector, which is kept as it is.
    pub fn new(messages: Vec<Message>) -> Batch
        requires { vec_len messages ≤ 256 }
        ensures { result.messages ≡ messages }
    {
        Batch { messages }
    }
}
