//! Lists of messages.
ghost use Rattle.std.specs.Prelude.{◌≡◌};

use message_block::Message;
use std::marker::Model;

/// Messages in order. A contract sees the list of them.
#[derive(Drop)]
pub struct Messages {
    items: Vec<Message>,
}

impl Model for Messages {
    ghost use Rattle.std.specs.Prelude.{List};
    ghost use Rattle.message_block.specs.Messages.{MessageState};

    ghost Value = { List MessageState };

    ghost view = { λ m. m.items.items };
}

impl Messages {
    /// The messages of a vector, which is kept as it is.
    pub fn new(items: Vec<Message>) -> Messages
        ensures { result ≡ items.items }
    {
        Messages { items }
    }

    /// The messages.
    pub fn as_slice(&self) -> &[Message]
        ensures { result.now ≡ self.now }
    {
        self.items.as_slice()
    }

    /// The vector of the messages.
    pub fn into_vec(self) -> Vec<Message>
        ensures { result.items ≡ self }
    {
        self.items
    }
}
