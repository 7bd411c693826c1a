//! A script as a demultiplexer and its ends keep it.
ghost use Rattle.std.specs.Prelude.{◌≡◌, ◌++◌, ◌∷◌, [], IfOk, OnOk};
ghost use Rattle.script_net.specs.Scripts.{part_view};
ghost use Rattle.script_net.specs.Playable.{IsFilled};

use ev_base::NoMemory;
use std::alloc::Global;
use std::marker::Model;

/// The end at which a step is reported, always as ready to be read.
#[derive(Clone, Copy, PartialEq, Eq, Debug)]
pub enum End {
    /// The listener.
    Listener,
    /// The connection of this number.
    Connection(u64),
}

/// Steps that come at one moment. A group without steps only lets that moment come.
#[derive(Drop)]
pub struct Group {
    /// The moment in milliseconds.
    pub moment: u64,
    /// The ends of the steps in order.
    pub steps: Vec<End>,
}

/// One part of what the end of a connection has to tell.
#[derive(Drop)]
pub enum Part {
    /// These bytes, of which there is at least one.
    Piece(Vec<u8>),
    /// That nothing is there now.
    Pause,
    /// The end of the input, from then on.
    Over,
    /// A failure, from then on.
    Failure,
}

/// One thing that an accept of the listener comes to.
#[derive(Clone, Copy, PartialEq, Eq, Debug)]
pub enum Offer {
    /// The connection of this number.
    Connection(u64),
    /// That none waits now.
    Pause,
    /// A failure, told once.
    Failure,
}

/// A connection of a script, which did not come yet.
#[derive(Drop)]
pub struct Connection {
    /// What its end has to tell.
    pub parts: Vec<Part>,
    /// How many bytes its end takes.
    pub room: usize,
    /// What was written to its end: nothing, with room for all that it takes.
    pub held: Vec<u8>,
}

impl Model for Connection {
    ghost use Rattle.std.specs.Prelude.{◌≡◌, ◌≤◌, [], vec_capacity};
    ghost use Rattle.script_net.specs.Content.{ConnectionContent};

    ghost Value = { ConnectionContent };

    ghost use Rattle.script_net.specs.Scripts.{part_views};
    ghost use Rattle.script_net.specs.Playable.{AreFilled};

    ghost view = { λ c. record { parts = part_views c.parts.items; room = c.room } };

    ghost invariant = { λ c. AreFilled (part_views c.parts.items) × (c.held.items ≡ [])
        × (c.room ≤ vec_capacity c.held) };
}

impl Connection {
    /// A connection that has nothing to tell yet, whose end takes so many bytes.
    pub fn new(alloc: Global, room: usize) -> Result<Connection, NoMemory>
        ensures { IfOk result (λ connection. connection ≡ record { parts = []; room = room }) }
    {
        Ok(Connection {
            parts: Vec::new(alloc),
            room,
            held: Vec::with_capacity(alloc, room)?,
        })
    }

    /// It has one part more to tell. A piece has a byte. After `NoMemory` it has no more to tell
    /// than before.
    pub fn add(&mut self, part: Part) -> Result<(), NoMemory>
        requires { IsFilled (part_view part) }
        ensures added { OnOk result (self.new ≡ record self.old {
          parts = self.old.parts ++ part_view part ∷ [];
        }) }
        ensures room { self.new.room ≡ self.old.room }
    {
        self.parts.push(part)?;
        Ok(())
    }
}
