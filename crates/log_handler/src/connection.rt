//! The event handler of one connection.
ghost use Rattle.std.specs.Prelude.{◌≡◌, ◌≢◌, ◌<◌, ◌≤◌, ◌↔◌, ℕ, List, [], true, false, Some, None};
ghost use Rattle.std.specs.Prelude.{IsSome, Option, length};
ghost use Rattle.cdr_record.specs.ev_types.specs.declared.upcall.Answer.TheVariants.{Keep, Again};
ghost use Rattle.cdr_record.specs.ev_types.specs.declared.upcall.Answer.TheVariants.{Close};
ghost use Rattle.cdr_record.specs.ev_types.specs.declared.upcall.Upcall.TheVariants.{Input};
ghost use Rattle.cdr_record.specs.ev_types.specs.declared.upcall.Upcall.TheVariants.{Timeout};
ghost use Rattle.cdr_record.specs.ev_types.specs.declared.upcall.Why.TheVariants.{Own};
ghost use Rattle.ev_base.specs.Terms.{Terms};
ghost use Rattle.ev_base.specs.End.{IsFresh, Paused};
ghost use Rattle.cdr_record.specs.Decoding.{StandsFor, decode};
ghost use Rattle.line_sink.specs.reactor_journal.specs.Event.{Item, Origin};
ghost use Rattle.line_sink.specs.reactor_model.specs.Handling.{NoClose, EndsInClose, Names};
ghost use Rattle.line_sink.specs.reactor_model.specs.Turns.{TakesTurn, KeepsPromises};
ghost use Rattle.log_handler.specs.Connection.{Progress, end_of};
ghost use Rattle.log_lines.specs.declared.end_kind.EndKind.TheVariants.{NoMemory};
ghost use Rattle.log_handler.specs.Connections.{MayComeFrom, ConnectionFits, ConnectionGone};
ghost use Rattle.log_handler.specs.Connections.{HasDecoder, IsClosing, connections};
ghost use Rattle.log_handler.specs.Connections.{end_of_connection, serial_named};
ghost use Rattle.log_handler.specs.Steps.{IsTurn, IsSame, Serves, TellsPiece, item_of};
ghost use Rattle.log_handler.specs.Notes.{is_piece};

use crate::peer::Peer;
use crate::{LoggedRecords, ServerNote};
use cdr_record::Decoder;
use cdr_record::laws::tells_stop;
use ev_base::{Answer, Got, Handle, Mask, Net, NetFailed, PeerEnd, Upcall, Why};
use line_sink::{EventHandler, Turn};
use log_lines::EndKind;
use packed_records::GatheredRecords;
use std::alloc::Global;

/// How many bytes a read takes at most.
const PIECE: usize = 4096;

/// How many bytes a record is taken to have at least: shorter ones make a list grow.
const USUAL_RECORD: usize = 64;

/// The event handler of one connection (C++NPv2 chapter 4, `Logging_Event_Handler`): it decodes log
/// records from what its end gives, one read for each upcall, and notes them.
pub struct LogConnection<E: PeerEnd> {
    conn: u64,
    peer: Peer<E>,
    idle: Option<u64>,
    last: u64,
    decoder: Decoder,
    kept: Option<EndKind>,
    alloc: Global,
}

impl<E: PeerEnd> LogConnection<E> {
    /// The handler of connection number `conn`, accepted at the moment `now` in milliseconds. If
    /// `idle` is given, it is closed at a timeout once so many milliseconds brought no bytes. It
    /// takes no memory.
    pub fn new(alloc: Global, conn: u64, end: E, idle: Option<u64>, now: u64) -> LogConnection<E>
        requires no_listener { (E.tells end).listener ≡ false }
        requires fresh { IsFresh (E.tells end) }
        ensures end { end_of_connection result ≡ end }
        ensures fits { (t : Terms) (origin : Option (Origin ServerNote)) → E.keeps t end
            → MayComeFrom t origin conn idle now (E.tells end).serial
            → ConnectionFits E.tells E.keeps t origin result [] }
    {
        LogConnection {
            conn,
            peer: Peer { end },
            idle,
            last: now,
            decoder: Decoder::new(alloc),
            kept: None,
            alloc,
        }
    }

    /// Makes one read.
    fn read_piece(&mut self, now: u64) -> Turn<LogConnection<E>>
        ensures same { IsSame E.tells E.keeps self.old self.new }
        ensures serves { Serves E.tells Input now self.old self.new result }
        ensures pauses { (result.answer ≡ Keep) ↔ ((E.tells (end_of_connection self.new)).last_read
            ≡ Some Paused) }
        ensures noted { is_piece result.note ≡ true }
        ensures quiet { result.act ≡ None }
    {
        let mut buffer = [0u8; PIECE];
        match self.peer.end.read(&mut buffer) {
            Got::Bytes(count) => self.take_piece(&buffer[..count], now),
            Got::Pause => self.keep(),
            Got::Over => {
                let end = self.end_of_input();
                self.close_as(end)
            }
            Got::Failed => self.close_as(EndKind::Failed),
        }
    }

    /// Decodes a piece that was read.
    fn take_piece(&mut self, piece: &[u8], now: u64) -> Turn<LogConnection<E>>
        ensures told { (before : Progress) → before.kept ≡ None → self.old.kept ≡ None
            → HasDecoder before self.old.decoder
            → TellsPiece self.old.conn before piece.now (item_of Input now result) self.new.kept
            self.new.decoder }
        ensures last { self.new.last ≡ now }
        ensures conn { self.new.conn ≡ self.old.conn }
        ensures idle { self.new.idle ≡ self.old.idle }
        ensures end { end_of_connection self.new ≡ end_of_connection self.old }
        ensures goes_on { result.answer ≢ Keep }
        ensures noted { is_piece result.note ≡ true }
        ensures quiet { result.act ≡ None }
    {
        self.last = now;
        let took = piece.len() as u64;
        let mut records = room_for(self.alloc, piece.len());
        match self.decoder.feed_to(piece, &mut records) {
            Ok(bad) => {
                tells_stop();
                match LoggedRecords::with_lines(self.alloc, self.conn, records) {
                    Ok(records) => match bad {
                        Some(bad) => self.close_with(EndKind::Malformed(bad.at), took, records),
                        None => self.turn(Answer::Again, took, records),
                    },
                    Err(_) => self.lose(took),
                }
            }
            Err(_) => self.lose(took),
        }
    }

    /// Closes for want of memory for what a piece of so many bytes completes.
    fn lose(&mut self, took: u64) -> Turn<LogConnection<E>>
        ensures turn { IsTurn self.old.conn Close took [] result }
        ensures ends { self.new ≡ record self.old { kept = Some NoMemory } }
    {
        self.close_with(EndKind::NoMemory, took, LoggedRecords::none())
    }

    /// Closes if nothing came for too long.
    fn check_idle(&mut self, now: u64) -> Turn<LogConnection<E>>
        ensures same { IsSame E.tells E.keeps self.old self.new }
        ensures serves { (timer : ℕ) → Serves E.tells (Timeout timer) now self.old self.new result }
        ensures waits { result.answer ≢ Again }
        ensures noted { is_piece result.note ≡ true }
        ensures quiet { result.act ≡ None }
    {
        match self.idle {
            Some(idle) if now.saturating_sub(self.last) >= idle => self.close_as(EndKind::Idle),
            _ => self.keep(),
        }
    }

    /// How the connection ends whose input is read to its end.
    fn end_of_input(&self) -> EndKind
        ensures { (t : List ℕ) → StandsFor self.now.decoder t → self.now.decoder.bad ≡ None
            → result ≡ end_of (decode t).stop }
    {
        match self.decoder.rest_len() {
            0 => EndKind::End,
            rest => EndKind::Partial(rest),
        }
    }

    /// A turn that took nothing and changes nothing.
    fn keep(&self) -> Turn<LogConnection<E>>
        ensures { IsTurn self.now.conn Keep 0 [] result }
    {
        self.turn(Answer::Keep, 0, LoggedRecords::none())
    }

    /// A turn that took nothing and ends the connection so.
    fn close_as(&mut self, end: EndKind) -> Turn<LogConnection<E>>
        ensures turn { IsTurn self.old.conn Close 0 [] result }
        ensures ends { self.new ≡ record self.old { kept = Some end } }
    {
        self.close_with(end, 0, LoggedRecords::none())
    }

    /// A turn that took so many bytes, completed these records, and ends the connection so.
    fn close_with(
        &mut self,
        end: EndKind,
        took: u64,
        records: LoggedRecords,
    ) -> Turn<LogConnection<E>>
        ensures turn { IsTurn self.old.conn Close took records result }
        ensures ends { self.new ≡ record self.old { kept = Some end } }
    {
        self.kept = Some(end);
        self.turn(Answer::Close, took, records)
    }

    fn turn(&self, answer: Answer, took: u64, records: LoggedRecords) -> Turn<LogConnection<E>>
        ensures { IsTurn self.now.conn answer took records result }
    {
        Turn {
            answer,
            note: ServerNote::Piece {
                conn: self.conn,
                took,
                records,
            },
            act: None,
        }
    }
}

/// No records, to be given room for those of a piece of so many bytes, if they are of usual
/// size.
fn room_for(alloc: Global, bytes: usize) -> GatheredRecords
    ensures { result ≡ [] }
{
    GatheredRecords::new(alloc, bytes / USUAL_RECORD + 1, bytes)
}

/// How a connection is closed for the reason, which ended itself in this way or did not.
fn closing(why: Why, kept: Option<EndKind>) -> EndKind
    ensures { (why ≡ Own → IsSome kept) → IsClosing why kept result }
{
    match (why, kept) {
        (Why::Own, Some(end)) => end,
        (Why::Removed, Some(EndKind::NoMemory)) => EndKind::NoMemory,
        (Why::Refused, _) => EndKind::Refused,
        _ => EndKind::Stopped,
    }
}

impl<E: PeerEnd> EventHandler for LogConnection<E> {
    type Note = ServerNote;

    type End = E;

    ghost means = { connections E.tells E.keeps };

    fn upcall(&mut self, up: Upcall, now: u64) -> Turn<LogConnection<E>>
        ensures turn { (t : Terms) (origin : Option (Origin ServerNote))
            (had : List (Item ServerNote)) → NoClose had
            → ConnectionFits E.tells E.keeps t origin self.old had
            → TakesTurn (connections E.tells E.keeps) t origin up now had self.new result }
        ensures promises { KeepsPromises (connections E.tells E.keeps) up result }

        // No turn carries an act, and each notes what it took.
        ensures quiet { result.act ≡ None }
        ensures noted { is_piece result.note ≡ true }

        // Input is answered Keep exactly if its one read paused.
        ensures pauses { up ≡ Input → (result.answer ≡ Keep)
            ↔ ((E.tells (end_of_connection self.new)).last_read ≡ Some Paused) }
    {
        match up {
            Upcall::Input => self.read_piece(now),
            Upcall::Timeout { .. } => self.check_idle(now),
            _ => self.keep(),
        }
    }

    fn attach_to<M: Net<End = E>>(
        &mut self,
        net: &mut M,
        handle: Handle,
        mask: Mask,
    ) -> Result<(), NetFailed> {
        net.attach(&mut self.peer.end, handle, mask)
    }

    fn handle_close(self, why: Why) -> (E, ServerNote)
        ensures gone { (t : Terms) (origin : Option (Origin ServerNote))
            (had : List (Item ServerNote)) → (why ≡ Own → EndsInClose had)
            → ConnectionFits E.tells E.keeps t origin self had
            → ConnectionGone E.tells E.keeps t origin result.0 had why result.1 }
        ensures serial { (t : Terms) (origin : Option (Origin ServerNote))
            (had : List (Item ServerNote)) → ConnectionFits E.tells E.keeps t origin self had
            → Names (serial_named t origin) (E.tells result.0).serial }
        ensures kept { (t : Terms) (origin : Option (Origin ServerNote))
            (had : List (Item ServerNote)) → ConnectionFits E.tells E.keeps t origin self had
            → E.keeps t result.0 }

        // The end that it gives is its own.
        ensures end { result.0 ≡ end_of_connection self }
    {
        let LogConnection {
            conn,
            peer: Peer { end },
            kept,
            idle: _,
            last: _,
            decoder: _,
            alloc: _,
        } = self;
        let word = closing(why, kept);
        (end, ServerNote::Finished { conn, end: word })
    }
}
