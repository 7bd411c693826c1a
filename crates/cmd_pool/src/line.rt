//! Lines that a writer made, one after another in one text.
ghost use Rattle.std.specs.Prelude.{◌≡◌, ◌⊎◌, ◌++◌, ◌∷◌, [], true, All, IfOk, IfSome};
ghost use Rattle.std.proofs.Props.{props};
ghost use Rattle.cdr_record.specs.Borrowed.{owned};
ghost use Rattle.log_lines.specs.Texts.{record_line};
ghost use Rattle.cmd_pool.specs.Lines.{AddsOrKeeps, Grows, HasHead, StandsIn, Stands, items_in};
ghost use Rattle.cmd_pool.specs.Lines.{line_of, part};

use cdr_record::RecordRef;
use ev_base::NoMemory;
use std::alloc::Global;
use task_server::Item;

/// A part of a text.
#[derive(Clone, Copy, Debug)]
pub(crate) struct Span {
    pub(crate) start: usize,
    pub(crate) end: usize,
}

/// A line in a text: what its record has beside its message, and where the line and the message
/// stand.
#[derive(Clone, Copy, Debug)]
pub(crate) struct Line {
    pub(crate) conn: u64,
    pub(crate) event: u64,
    pub(crate) index: u64,
    pub(crate) kind: i32,
    pub(crate) pid: i32,
    pub(crate) sec: i64,
    pub(crate) usec: i32,
    pub(crate) line: Span,
    pub(crate) message: Span,
}

impl Line {
    /// That of an item with this record, which stands there, as the record's message does.
    fn of(item: &Item, entry: RecordRef<'_>, line: Span, message: Span) -> Line
        ensures { result ≡ line_of item.now entry.entry line message }
    {
        Line {
            conn: item.conn,
            event: item.event,
            index: item.index,
            kind: entry.kind,
            pid: entry.pid,
            sec: entry.sec,
            usec: entry.usec,
            line,
            message,
        }
    }

    /// Whether it is of this connection, and its record is this one but for the message.
    fn has_head(&self, conn: u64, entry: RecordRef<'_>) -> bool
        ensures { result ≡ true → HasHead self.now conn entry.entry }
    {
        self.conn == conn
            && self.kind == entry.kind
            && self.pid == entry.pid
            && self.sec == entry.sec
            && self.usec == entry.usec
    }
}

/// Lines, one after another in one text. The message of each stands in its line, or after it if
/// the line has it with escapes.
#[derive(Drop)]
pub(crate) struct Lines {
    text: Vec<u8>,
    lines: Vec<Line>,
    ghost made: { All (StandsIn text.items) lines.items } by { Prim.hlevel props },
}

impl Lines {
    /// No lines. It takes no memory.
    pub(crate) fn none(alloc: Global) -> Lines
        ensures { result.lines.items ≡ [] }
    {
        Lines {
            text: Vec::new(alloc),
            lines: Vec::new(alloc),
        }
    }

    /// How many bytes their text has.
    pub(crate) fn text_len(&self) -> usize {
        self.text.len()
    }

    /// The lines.
    pub(crate) fn as_slice(&self) -> &[Line] {
        self.lines.as_slice()
    }

    /// Adds the line of an item. On `NoMemory` it is left out.
    pub(crate) fn add(&mut self, item: &Item, text: &[u8]) -> Result<(), NoMemory>
        requires { text.now ≡ record_line item.now.conn item.now.rec }
        ensures { AddsOrKeeps (items_in self.old.text.items self.old.lines.items) item.now
            (items_in self.new.text.items self.new.lines.items) }
    {
        let line = append(&mut self.text, text)?;
        let entry = item.rec.borrowed();
        let message = keep_message(&mut self.text, entry.text)?;
        add_line(&mut self.lines, Line::of(item, entry, line, message))
    }

    /// The text of the line of this number, if it is the line of this record for this connection.
    pub(crate) fn text_for(&self, number: usize, conn: u64, entry: RecordRef<'_>) -> Option<&[u8]>
        ensures { IfSome result (λ text. text.now ≡ record_line conn (owned entry.entry)) }
    {
        let line = self.lines.get(number)?;
        if line.has_head(conn, entry) && self.part(line.message)? == entry.text {
            self.part(line.line)
        } else {
            None
        }
    }

    /// A part of their text, if it lies within.
    fn part(&self, span: Span) -> Option<&[u8]>
        ensures { IfSome result (λ bytes. bytes.now ≡ part span self.now.text.items) }
    {
        self.text.get(span.start..span.end)
    }
}

/// Adds bytes to a text. On `NoMemory` none is added.
fn append(text: &mut Vec<u8>, bytes: &[u8]) -> Result<Span, NoMemory>
    ensures grows { Grows text.old.items text.new.items }
    ensures stands { IfOk result (λ span. Stands span bytes.now text.new.items) }
{
    let start = text.len();
    text.extend_from_slice(bytes)?;
    let end = text.len();
    Ok(Span { start, end })
}

/// Adds a line to others. On `NoMemory` it is not added.
fn add_line(lines: &mut Vec<Line>, line: Line) -> Result<(), NoMemory>
    ensures { (lines.new.items ≡ lines.old.items ++ line ∷ [])
        ⊎ (lines.new.items ≡ lines.old.items) }
{
    lines.push(line)?;
    Ok(())
}

/// Where a message stands in a text whose last line is that of its record. If it does not stand
/// before the end of that line it is added.
fn keep_message(text: &mut Vec<u8>, message: &[u8]) -> Result<Span, NoMemory>
    ensures grows { Grows text.old.items text.new.items }
    ensures stands { IfOk result (λ span. Stands span message.now text.new.items) }
{
    match message_before_end(text.as_slice(), message) {
        Some(span) => Ok(span),
        None => append(text, message),
    }
}

/// Where a message stands before the last byte of a text, if it stands there.
fn message_before_end(text: &[u8], message: &[u8]) -> Option<Span>
    ensures { IfSome result (λ span. Stands span message.now text.now) }
{
    let end = text.len().checked_sub(1)?;
    let start = end.checked_sub(message.len())?;
    if &text[start..end] == message {
        Some(Span { start, end })
    } else {
        None
    }
}
