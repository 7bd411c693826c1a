//! The trait of tasks.
ghost use Rattle.std.specs.Prelude.{◌≡◌, true, List, [], ◌∷◌, IfOk};
ghost use Rattle.message_block.specs.Messages.{MessageState};
ghost use Rattle.module_stream.specs.Composition.{Comes, GiveTheSame};
ghost use Rattle.module_stream.specs.Passing.{passed_on};

use crate::messages::Messages;
use crate::passed::Passed;
use ev_types::NoMemory;
use message_block::Message;

/// A task of a module (ACE's `ACE_Task`): messages are put into it, and messages come out.
pub trait Task: Drop {
    /// What comes out for a list of messages that is put from now on, and then finished.
    ghost gives: { Self → List MessageState → List MessageState };

    /// Puts a message, and gives the messages that come out now. The changed task gives the rest.
    /// After `NoMemory` the message is lost, and so may be what the task held back.
    fn put(&mut self, m: Message) -> Result<Messages, NoMemory>
        ensures comes { IfOk result (λ out. Comes (gives self.old) (m ∷ []) out (gives self.new)) };

    /// Ends the list of messages, and gives those that were held back. After `NoMemory` they are
    /// lost.
    fn finish(&mut self) -> Result<Messages, NoMemory>
        ensures comes { IfOk result (λ out. out ≡ gives self.old []) };

    /// Puts a message as `put` does. A task that gives one message for each can give it here
    /// without a list.
    fn pass(&mut self, m: Message) -> Result<Passed, NoMemory>
        ensures comes { IfOk result (λ out. Comes (gives self.old) (m ∷ []) (passed_on out)
            (gives self.new)) }
    {
        Ok(Passed::Many(self.put(m)?))
    }

    /// Whether the task gives each message as it was put (as ACE's `ACE_Thru_Task` does). A stream
    /// hands no message to a task that says so; it asks again for each message, and finishes the
    /// task as any other.
    fn is_passing(&self) -> bool
        ensures passes { result ≡ true → GiveTheSame (gives self.now) (λ messages. messages) }
    {
        false
    }
}
