//! The lines, connection after connection.
ghost use Rattle.std.specs.Prelude.{◌≡◌, ◌<◌, length, OnOk, OnErr, IfOk};
ghost use Rattle.sink_buffer.specs.Texts.{Puts};
ghost use Rattle.sink_buffer.specs.Written.{WritesAll};
ghost use Rattle.log_handler.specs.Notes.{entry_lines};
ghost use Rattle.laws_script_runs.specs.Connections.{lines_by_connection, lines_of};
ghost use Rattle.grouped_lines.specs.Chains.{ChainsFrom};

use crate::chains::Chains;
use ev_base::{NoMemory, Sink};
use log_handler::{ServerNote, put_entry_lines};
use reactor_journal::Entry;
use sink_buffer::{SinkBuffer, TextOut};
use std::alloc::Global;

/// What puts the lines of one entry's note.
pub trait EntryLines<T: TextOut> {
    /// Puts the lines of an entry's note: those of a piece's records, or the closing line of a
    /// connection. Other entries have none.
    fn put_lines(&self, out: &mut T, entry: &Entry<ServerNote>)
        ensures { Puts T.stands out.old (entry_lines entry.now) out.new };
}

/// It makes each line where it is put.
#[derive(Clone, Copy, PartialEq, Eq, Debug, Drop)]
pub struct MadeInPlace;

impl<T: TextOut> EntryLines<T> for MadeInPlace {
    fn put_lines(&self, out: &mut T, entry: &Entry<ServerNote>) {
        put_entry_lines(out, entry);
    }
}

/// Puts the lines of a journal's notes, connection after connection by rising number, those of each
/// in the journal's order. The connections are as many as the journal tells as accepted, numbered
/// from 0. It takes memory for a place of each entry and of each connection; for want of it nothing
/// was put.
pub fn put_by_connection<T: TextOut>(
    alloc: Global,
    out: &mut T,
    entries: &[Entry<ServerNote>],
) -> Result<(), NoMemory>
    ensures ok { OnOk result (Puts T.stands out.old (lines_by_connection entries.now) out.new) }
    ensures err { OnErr result (out.new ≡ out.old) }
{
    put_given_by_connection(alloc, out, entries, &MadeInPlace)
}

/// Puts the lines of a journal's notes, as `put_by_connection` does. Each entry's lines are put by
/// what is given.
pub fn put_given_by_connection<T: TextOut, L: EntryLines<T>>(
    alloc: Global,
    out: &mut T,
    entries: &[Entry<ServerNote>],
    given: &L,
) -> Result<(), NoMemory>
    ensures ok { OnOk result (Puts T.stands out.old (lines_by_connection entries.now) out.new) }
    ensures err { OnErr result (out.new ≡ out.old) }
{
    match Chains::of(alloc, entries) {
        Ok(chains) => {
            put_all(out, entries, &chains, given);
            Ok(())
        }
        Err(refused) => Err(refused),
    }
}

/// Puts the lines of all connections.
fn put_all<T: TextOut, L: EntryLines<T>>(
    out: &mut T,
    entries: &[Entry<ServerNote>],
    chains: &Chains,
    given: &L,
)
    requires { ChainsFrom entries.now 0 chains.now }
    ensures { Puts T.stands out.old (lines_by_connection entries.now) out.new }
{
    for conn in 0..chains.connections() {
        put_one(out, entries, chains, conn, given);
    }
}

/// Puts the lines of one connection.
fn put_one<T: TextOut, L: EntryLines<T>>(
    out: &mut T,
    entries: &[Entry<ServerNote>],
    chains: &Chains,
    conn: usize,
    given: &L,
)
    requires conn { conn < length chains.now.first.items }
    requires chains { ChainsFrom entries.now 0 chains.now }
    ensures { Puts T.stands out.old (lines_of conn entries.now) out.new }
{
    let mut at = chains.first(conn);
    while at < entries.len() {
        given.put_lines(out, &entries[at]);
        at = chains.behind(at);
    }
}

/// Writes the lines of a journal's notes to a sink, as `put_by_connection` puts them, in few
/// writes, and gives the sink back, and whether no write failed: if one did, it has a front of
/// the lines. For want of memory nothing was written.
pub fn write_by_connection<K: Sink>(
    alloc: Global,
    output: K,
    entries: &[Entry<ServerNote>],
) -> (K, Result<bool, NoMemory>)
    ensures ok { IfOk result.1 (λ whole. WritesAll (K.facts output)
        (lines_by_connection entries.now) whole (K.facts result.0)) }
    ensures err { OnErr result.1 (result.0 ≡ output) }
{
    write_given_by_connection(alloc, output, entries, &MadeInPlace)
}

/// Writes the lines of a journal's notes to a sink, as `write_by_connection` does. Each entry's
/// lines are put by what is given.
pub fn write_given_by_connection<K: Sink, L: EntryLines<SinkBuffer<K>>>(
    alloc: Global,
    output: K,
    entries: &[Entry<ServerNote>],
    given: &L,
) -> (K, Result<bool, NoMemory>)
    ensures ok { IfOk result.1 (λ whole. WritesAll (K.facts output)
        (lines_by_connection entries.now) whole (K.facts result.0)) }
    ensures err { OnErr result.1 (result.0 ≡ output) }
{
    let mut lines = SinkBuffer::new(output);
    match put_given_by_connection(alloc, &mut lines, entries, given) {
        Ok(()) => {
            let (output, whole) = lines.finish();
            (output, Ok(whole))
        }
        Err(refused) => (lines.into_output(), Err(refused)),
    }
}
