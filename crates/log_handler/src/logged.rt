//! The records of a piece, with the text of their lines.
ghost use Rattle.std.specs.Prelude.{◌≡◌, [], IfOk, IfSome, MatchOption, List, length};
ghost use Rattle.log_lines.specs.Texts.{record_lines};
ghost use Rattle.log_handler.specs.Logged.{HasItsText, records_of};

use cdr_record::Records;
use ev_base::NoMemory;
use line_sink::GrowingText;
use log_lines::put_record_lines;
use packed_records::{Gathered, GatheredRecords, PackedRecords, ShortRecord, Unpacked};
use std::alloc::Global;
use std::marker::Model;

/// How many bytes a line is taken to have beside its message: so many, and more than usual numbers
/// need.
const BESIDE_MESSAGE: usize = 64;

/// What is kept of a piece's records.
#[derive(Debug, Drop)]
enum Content {
    /// One record alone, whose message is short. The text of its line is made where it is written.
    One(ShortRecord),
    /// Any records, and the text of their lines for a connection's number, if that was made.
    Many {
        records: PackedRecords,
        number: Option<u64>,
        text: Vec<u8>,
    },
}

/// The records of a piece, in order, and if it was made the text of their lines, so that a watch
/// writes it as it is. A contract sees the list of the records. However many they are, they take at
/// most four allocations. One alone whose message has at most 104 bytes takes one, and no records
/// take none.
#[derive(Debug, Drop)]
pub struct LoggedRecords {
    content: Option<Box<Content>>,
}

impl Model for LoggedRecords {
    ghost use Rattle.std.specs.Prelude.{List, IfSome};
    ghost use Rattle.cdr_record.specs.declared.record.LogRecord.{LogRecord};
    ghost use Rattle.log_handler.specs.Logged.{records_in, HasItsText};

    ghost Value = { List LogRecord };

    ghost view = { λ r. records_in r.content };

    // A text that is there is that of the lines of these records, for the connection's number that
    // stands beside it.
    ghost invariant = { λ r. IfSome r.content (λ c. HasItsText c.value) };
}

impl LoggedRecords {
    /// No records.
    pub fn none() -> LoggedRecords
        ensures { result ≡ [] }
    {
        LoggedRecords { content: None }
    }

    /// These records, copied, without the text of their lines.
    pub fn new(alloc: Global, records: Records) -> Result<LoggedRecords, NoMemory>
        ensures { IfOk result (λ logged. logged ≡ records) }
    {
        if records.as_slice().is_empty() {
            return Ok(LoggedRecords::none());
        }
        let records = PackedRecords::of(alloc, records.as_slice())?;
        let content = Content::Many {
            records,
            number: None,
            text: Vec::new(alloc),
        };
        LoggedRecords::keeping(alloc, content)
    }

    /// These records, with the text of their lines for this connection's number if they are
    /// packed. On `NoMemory` they are dropped.
    pub fn with_lines(
        alloc: Global,
        conn: u64,
        records: GatheredRecords,
    ) -> Result<LoggedRecords, NoMemory>
        ensures { IfOk result (λ logged. logged ≡ records) }
    {
        match records.into_gathered() {
            Gathered::None => Ok(LoggedRecords::none()),
            Gathered::One(first) => LoggedRecords::keeping(alloc, Content::One(first)),
            Gathered::Many(records) => {
                let text = text_of_lines(alloc, conn, &records)?;
                let content = Content::Many {
                    records,
                    number: Some(conn),
                    text,
                };
                LoggedRecords::keeping(alloc, content)
            }
        }
    }

    /// The records of this content, which is put into a box.
    fn keeping(alloc: Global, content: Content) -> Result<LoggedRecords, NoMemory>
        requires { HasItsText content }
        ensures { IfOk result (λ logged. logged ≡ records_of content) }
    {
        match Box::new(alloc, content) {
            Ok(content) => Ok(LoggedRecords {
                content: Some(content),
            }),
            Err(_) => Err(NoMemory),
        }
    }

    /// What is kept, if there is a record.
    fn content(&self) -> Option<&Content>
        ensures { MatchOption result (self.now ≡ [])
            (λ content. (self.now ≡ records_of content.now) × HasItsText content.now) }
    {
        self.content.as_deref()
    }

    /// How many records there are.
    pub fn len(&self) -> usize
        ensures { result ≡ length self.now }
    {
        match self.content() {
            Some(Content::Many { records, .. }) => records.len(),
            Some(Content::One(_)) => 1,
            None => 0,
        }
    }

    /// The records, in order, with their messages borrowed.
    pub fn iter(&self) -> Unpacked<'_>
        ensures { result ≡ self.now }
    {
        match self.content() {
            Some(Content::Many { records, .. }) => records.iter(),
            Some(Content::One(first)) => first.iter(),
            None => Unpacked::none(),
        }
    }

    /// The text of the lines for this connection's number, if it was made for that.
    pub fn lines_for(&self, conn: u64) -> Option<&[u8]>
        ensures { IfSome result (λ text. text.now ≡ record_lines conn self.now) }
    {
        match self.content() {
            Some(Content::Many { number, text, .. }) if *number == Some(conn) => Some(
                text.as_slice(),
            ),
            _ => None,
        }
    }
}

/// How much room the text of the lines is given first.
fn room_for_lines(records: &PackedRecords) -> usize {
    records
        .len()
        .saturating_mul(BESIDE_MESSAGE)
        .saturating_add(records.message_bytes())
}

/// The text of the lines of records.
fn text_of_lines(alloc: Global, conn: u64, records: &PackedRecords) -> Result<Vec<u8>, NoMemory>
    ensures { IfOk result (λ text. text.items ≡ record_lines conn records.now) }
{
    let bytes = Vec::with_capacity(alloc, room_for_lines(records))?;
    let mut text = GrowingText::new(bytes, usize::MAX);
    put_record_lines(&mut text, conn, records.iter());
    text.into_bytes()
}
