//! What was read of a script, line by line.
ghost use Rattle.std.specs.Prelude.{◌≡◌, ◌++◌, ◌∷◌, [], ◌<◌, length, get_or, set, true, false};
ghost use Rattle.std.specs.Prelude.{OnOk, IfOk, List, ℕ};
ghost use Rattle.script_net.specs.event_script.specs.Grammar.{Line as GrammarLine, groups_of};
ghost use Rattle.script_net.specs.event_script.specs.Grammar.{may_stand, steps_in, At, Quiet};
ghost use Rattle.script_net.specs.event_script.specs.Grammar.{Stepping, Spells};
ghost use Rattle.script_net.specs.event_script.specs.Script.{goes_on, Opens};
ghost use Rattle.script_net.specs.event_script.specs.Stories.{offers_of};
ghost use Rattle.script_text.specs.Lines.{step_view, line_view};
ghost use Rattle.script_net.specs.Scripts.{group_views, steps_at, offer_views, part_view};
ghost use Rattle.script_net.specs.Playable.{IsFilled};
ghost use Rattle.script_text.specs.Reading.{Reads, ForRead, Takes, HasDone, HasTold, IsTold, Comes};
ghost use Rattle.script_text.specs.Reading.{open_group};
ghost use Rattle.script_text.specs.Parsing.{Judges, HasGroups};

use crate::line::{Line, Step, read_line};
use ev_base::NoMemory;
use script_net::{Connection, End, Group, Offer, Part, Script};
use std::alloc::Global;

/// The groups so far, the steps of the last one if it may go on, the present moment, how many steps
/// there are, of each connection that came whether it was shut or failed, and what the listener and
/// the connections have to tell.
#[derive(Drop)]
pub(crate) struct Reading {
    alloc: Global,
    room: usize,
    groups: Vec<Group>,
    current: Vec<End>,
    moment: u64,
    steps: u64,
    done: Vec<bool>,
    offers: Vec<Offer>,
    connections: Vec<Connection>,
}

impl Reading {
    /// Nothing was read. Each connection is to have room for so many bytes that are written to it.
    pub(crate) fn new(alloc: Global, room: usize) -> Reading
        ensures nothing { Reads result [] }
        ensures room { result.room ≡ room }
    {
        Reading {
            alloc,
            room,
            groups: Vec::new(alloc),
            current: Vec::new(alloc),
            moment: 0,
            steps: 0,
            done: Vec::new(alloc),
            offers: Vec::new(alloc),
            connections: Vec::new(alloc),
        }
    }

    /// Ends the group that may go on.
    fn flush(&mut self) -> Result<(), NoMemory>
        ensures groups { OnOk result (group_views self.new.groups.items
            ≡ group_views self.old.groups.items
            ++ open_group self.old.moment (steps_at self.old.current.items)) }
        ensures current { OnOk result (self.new.current.items ≡ []) }
        ensures rest { (self.new.moment ≡ self.old.moment) × (self.new.steps ≡ self.old.steps)
            × (self.new.done ≡ self.old.done) }
        ensures ends { (self.new.offers ≡ self.old.offers)
            × (self.new.connections ≡ self.old.connections) × (self.new.room ≡ self.old.room) }
    {
        if self.current.is_empty() {
            return Ok(());
        }
        let steps = std::mem::replace(&mut self.current, Vec::new(self.alloc));
        self.groups.push(Group {
            moment: self.moment,
            steps,
        })?;
        Ok(())
    }

    /// Reads a line `at`. After `NoMemory` nothing more is to be read.
    fn at(&mut self, moment: u64) -> Result<bool, NoMemory>
        ensures taken { ForRead self.old (λ past. IfOk result
            (λ good. Takes self.new past (At moment) good)) }
        ensures room { self.new.room ≡ self.old.room }
    {
        if moment < self.moment || moment > 4_294_967_295 {
            return Ok(false);
        }
        self.flush()?;
        self.moment = moment;
        Ok(true)
    }

    /// Reads a line `quiet`. After `NoMemory` nothing more is to be read.
    fn quiet(&mut self) -> Result<bool, NoMemory>
        ensures taken { ForRead self.old (λ past. IfOk result
            (λ good. Takes self.new past Quiet good)) }
        ensures room { self.new.room ≡ self.old.room }
    {
        self.flush()?;
        self.groups.push(Group {
            moment: self.moment,
            steps: Vec::new(self.alloc),
        })?;
        Ok(true)
    }

    /// Whether a connection came and was neither shut nor failed.
    fn goes_on(&self, conn: u64) -> bool
        ensures { ForRead self.now (λ past. result ≡ goes_on conn (steps_in past)) }
    {
        conn < self.done.len() as u64 && !self.done[conn as usize]
    }

    /// Whether a step may stand here.
    fn may_stand(&self, step: &Step) -> bool
        ensures { ForRead self.now (λ past. result ≡ may_stand past
            (Stepping (step_view step.now))) }
    {
        if self.steps >= 1_000_000 {
            return false;
        }
        match step {
            Step::Open(conn) => *conn == self.done.len() as u64 && *conn < 65_536,
            Step::Data(conn, bytes) => self.goes_on(*conn) && !bytes.is_empty(),
            Step::Shut(conn) | Step::Fail(conn) => self.goes_on(*conn),
            Step::FailListener => true,
        }
    }

    /// The end of a connection has one part more to tell.
    fn tell(&mut self, conn: u64, part: Part) -> Result<(), NoMemory>
        requires came { conn < length self.old.connections.items }
        requires filled { IsFilled (part_view part) }
        ensures told { OnOk result (IsTold self.old.connections.items conn (part_view part ∷ [])
            self.new.connections.items) }
        ensures rest { self.new ≡ record self.old { connections = self.new.connections } }
    {
        self.connections[conn as usize].add(part)
    }

    /// The end of a connection has a last part to tell.
    fn end(&mut self, conn: u64, part: Part) -> Result<(), NoMemory>
        requires came { conn < length self.old.connections.items }
        requires flagged { conn < length self.old.done.items }
        requires filled { IsFilled (part_view part) }
        ensures told { OnOk result (IsTold self.old.connections.items conn (part_view part ∷ [])
            self.new.connections.items) }
        ensures done { OnOk result (self.new.done.items ≡ set self.old.done.items conn true) }
        ensures rest { self.new ≡ record self.old {
          connections = self.new.connections;
          done = self.new.done;
        } }
    {
        self.tell(conn, part)?;
        self.done[conn as usize] = true;
        Ok(())
    }

    /// The connection of the next number comes.
    fn open(&mut self, conn: u64) -> Result<(), NoMemory>
        ensures come { OnOk result (Comes self.old.connections.items self.old.room
            self.new.connections.items) }
        ensures done { OnOk result (self.new.done.items ≡ self.old.done.items ++ false ∷ []) }
        ensures offered { OnOk result (offer_views self.new.offers.items
            ≡ offer_views self.old.offers.items ++ offers_of (Opens conn)) }
        ensures rest { self.new ≡ record self.old {
          connections = self.new.connections;
          done = self.new.done;
          offers = self.new.offers;
        } }
    {
        let connection = Connection::new(self.alloc, self.room)?;
        self.connections.push(connection)?;
        self.done.push(false)?;
        self.offers.push(Offer::Connection(conn))?;
        self.offers.push(Offer::Pause)?;
        Ok(())
    }

    /// Notes what a step that may stand here does to its ends.
    fn note(&mut self, step: Step) -> Result<(), NoMemory>
        requires { (past : List GrammarLine) × Reads self.old past
            × (may_stand past (Stepping (step_view step)) ≡ true) }
        ensures done { ForRead self.old (λ past. may_stand past (Stepping (step_view step)) ≡ true
            → OnOk result (HasDone self.new.done.items (step_view step ∷ steps_in past))) }
        ensures told { ForRead self.old (λ past. may_stand past (Stepping (step_view step)) ≡ true
            → OnOk result (HasTold self.new.connections.items self.old.room
            (step_view step ∷ steps_in past))) }
        ensures offered { OnOk result (offer_views self.new.offers.items
            ≡ offer_views self.old.offers.items ++ offers_of (step_view step)) }
        ensures rest { self.new ≡ record self.old {
          connections = self.new.connections;
          done = self.new.done;
          offers = self.new.offers;
        } }
    {
        match step {
            Step::Open(conn) => self.open(conn),
            Step::Data(conn, bytes) => {
                self.tell(conn, Part::Piece(bytes))?;
                self.tell(conn, Part::Pause)
            }
            Step::Shut(conn) => self.end(conn, Part::Over),
            Step::Fail(conn) => self.end(conn, Part::Failure),
            Step::FailListener => {
                self.offers.push(Offer::Failure)?;
                Ok(())
            }
        }
    }

    /// Reads a step. After `NoMemory` nothing more is to be read.
    fn step(&mut self, step: Step) -> Result<bool, NoMemory>
        requires { (past : List GrammarLine) × Reads self.old past }
        ensures taken { ForRead self.old (λ past. IfOk result
            (λ good. Takes self.new past (Stepping (step_view step)) good)) }
        ensures room { self.new.room ≡ self.old.room }
    {
        if !self.may_stand(&step) {
            return Ok(false);
        }
        let end = step.end();
        self.note(step)?;
        self.current.push(end)?;
        self.steps += 1;
        Ok(true)
    }

    /// Reads a line, and says whether it may stand here. After `NoMemory` nothing more is to be
    /// read.
    pub(crate) fn line(&mut self, line: Line) -> Result<bool, NoMemory>
        requires { (past : List GrammarLine) × Reads self.old past }
        ensures taken { ForRead self.old (λ past. IfOk result
            (λ good. Takes self.new past (line_view line) good)) }
        ensures room { self.new.room ≡ self.old.room }
    {
        match line {
            Line::At(moment) => self.at(moment),
            Line::Quiet => self.quiet(),
            Line::Step(step) => self.step(step),
        }
    }

    /// Reads the text of a line, and says whether it may stand here. After `NoMemory` nothing more
    /// is to be read.
    pub(crate) fn take(&mut self, bytes: &[u8]) -> Result<bool, NoMemory>
        requires { (past : List GrammarLine) × Reads self.old past }
        ensures taken { ForRead self.old (λ past. IfOk result
            (λ good. Judges self.new past bytes.now good)) }
        ensures room { self.new.room ≡ self.old.room }
    {
        match read_line(self.alloc, bytes)? {
            Some(line) => self.line(line),
            None => Ok(false),
        }
    }

    /// The script of all that was read, if each line may stand after those before it.
    pub(crate) fn finish(mut self) -> Result<Script, NoMemory>
        requires { (past : List GrammarLine) × (raws : List (List ℕ)) × Spells raws past
            × Reads self past }
        ensures { ForRead self (λ past. IfOk result (λ script.
            HasGroups script self.room (groups_of past))) }
    {
        self.flush()?;
        let steps = self.steps as usize;
        let script = Script::new(
            self.alloc,
            self.groups,
            self.offers,
            self.connections,
            steps,
        )?;
        Ok(script)
    }
}
