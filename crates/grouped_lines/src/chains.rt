//! Where the entries of each connection stand.
ghost use Rattle.std.specs.Prelude.{◌≡◌, ◌<◌, ◌+◌, length, replicate, IfOk, MatchOption, Some};
ghost use Rattle.std.specs.Prelude.{slice_index};
ghost use Rattle.laws_script_runs.specs.Connections.{accepted, accepts};
ghost use Rattle.grouped_lines.specs.Chains.{ChainsFrom, IsOfNone, conn_of, conn_of_note};

use ev_base::NoMemory;
use log_handler::ServerNote;
use reactor_journal::Entry;
use std::alloc::Global;

/// The places of the entries that have lines of a connection: for each connection that was accepted
/// its first, and after each the next. If there is none, the place is the end of the journal.
#[derive(Drop)]
pub(crate) struct Chains {
    first: Vec<usize>,
    behind: Vec<usize>,
}

impl Chains {
    /// Those of a journal.
    pub(crate) fn of(alloc: Global, entries: &[Entry<ServerNote>]) -> Result<Chains, NoMemory>
        ensures { IfOk result (λ chains. ChainsFrom entries.now 0 chains) }
    {
        let mut chains = Chains::empty(alloc, entries)?;
        let mut at = entries.len();
        while at > 0 {
            at -= 1;
            chains.link(entries, at);
        }
        Ok(chains)
    }

    /// Those of no entry of it.
    fn empty(alloc: Global, entries: &[Entry<ServerNote>]) -> Result<Chains, NoMemory>
        ensures { IfOk result (λ chains. ChainsFrom entries.now (length entries.now) chains) }
    {
        let end = entries.len();
        let first = filled(alloc, end, accepted(entries))?;
        let behind = filled(alloc, end, end)?;
        Ok(Chains { first, behind })
    }

    /// Adds the entry before those that stand in them.
    fn link(&mut self, entries: &[Entry<ServerNote>], at: usize)
        requires at { at < length entries.now }
        requires chains { ChainsFrom entries.now (at + 1) self.old }
        ensures { ChainsFrom entries.now at self.new }
    {
        match conn_among(&entries[at], self.connections()) {
            Some(conn) => {
                self.behind[at] = self.first[conn];
                self.first[conn] = at;
            }
            None => {}
        }
    }

    /// How many connections there are.
    pub(crate) fn connections(&self) -> usize
        ensures { result ≡ length self.now.first.items }
    {
        self.first.len()
    }

    /// The first place of a connection.
    pub(crate) fn first(&self, conn: usize) -> usize
        requires { conn < length self.now.first.items }
        ensures { result ≡ slice_index self.now.first.items conn }
    {
        self.first[conn]
    }

    /// The place after this one.
    pub(crate) fn behind(&self, at: usize) -> usize
        requires { at < length self.now.behind.items }
        ensures { result ≡ slice_index self.now.behind.items at }
    {
        self.behind[at]
    }
}

/// So many places that are the same.
fn filled(alloc: Global, place: usize, count: usize) -> Result<Vec<usize>, NoMemory>
    ensures { IfOk result (λ places. places.items ≡ replicate count place) }
{
    Ok(vec![in alloc; place; count]?)
}

/// How many connections a journal tells as accepted.
fn accepted(entries: &[Entry<ServerNote>]) -> usize
    ensures { result ≡ accepted entries.now }
{
    let mut accepted = 0;
    for entry in entries {
        if accepts(entry) {
            accepted += 1;
        }
    }
    accepted
}

/// Whether an entry tells that a connection was accepted.
fn accepts(entry: &Entry<ServerNote>) -> bool
    ensures { result ≡ accepts entry.now }
{
    match entry {
        Entry::Returned { note, .. } => matches!(note, ServerNote::Accepted { .. }),
        _ => false,
    }
}

/// The connection whose lines an entry has, if it is one of so many.
fn conn_among(entry: &Entry<ServerNote>, connections: usize) -> Option<usize>
    ensures { MatchOption result (IsOfNone connections entry.now)
        (λ conn. (conn_of entry.now ≡ Some conn) × (conn < connections)) }
{
    match conn_of(entry) {
        Some(conn) if conn < connections as u64 => Some(conn as usize),
        _ => None,
    }
}

/// The connection whose lines an entry has.
fn conn_of(entry: &Entry<ServerNote>) -> Option<u64>
    ensures { result ≡ conn_of entry.now }
{
    match entry {
        Entry::Returned { note, .. } | Entry::Refused { note, .. } | Entry::Closed { note, .. } =>
            conn_of_note(note),
        _ => None,
    }
}

/// The connection whose lines a note has.
fn conn_of_note(note: &ServerNote) -> Option<u64>
    ensures { result ≡ conn_of_note note.now }
{
    match note {
        ServerNote::Piece { conn, .. } | ServerNote::Finished { conn, .. } => Some(*conn),
        _ => None,
    }
}
