//! The lines that writers made, by their places.
ghost use Rattle.std.specs.Prelude.{◌≡◌, IfSome};
ghost use Rattle.cdr_record.specs.Borrowed.{owned};
ghost use Rattle.server_run.specs.log_handler.specs.Notes.{entry_lines};
ghost use Rattle.log_lines.specs.Texts.{record_line, record_lines};
ghost use Rattle.sink_buffer.specs.Texts.{Puts};

use crate::line::Lines;
use crate::places::{Place, Places};
use cdr_record::RecordRef;
use grouped_lines::EntryLines;
use log_lines::put_borrowed_line;
use server_run::{Entry, LoggedRecords, ServerNote, put_entry_lines};
use sink_buffer::TextOut;
use std::alloc::Global;

/// The lines that writers made, and where each is found.
#[derive(Drop)]
pub(crate) struct MadeLines {
    made: Vec<Lines>,
    places: Places,
}

impl MadeLines {
    /// These lines, for the records of these entries. If there is no memory for their places none
    /// is found.
    pub(crate) fn of(alloc: Global, made: Vec<Lines>, entries: &[Entry<ServerNote>]) -> MadeLines {
        let places = match Places::of(alloc, made.as_slice(), entries) {
            Ok(places) => places,
            Err(_) => Places::none(alloc),
        };
        MadeLines { made, places }
    }

    /// The line that a writer made and which has this place, if it is that of this record.
    fn line_at(&self, place: Place, conn: u64, entry: RecordRef<'_>) -> Option<&[u8]>
        ensures { IfSome result (λ text. text.now ≡ record_line conn (owned entry.entry)) }
    {
        let lines = self.made.get(place.lines as usize)?;
        lines.text_for(place.number as usize, conn, entry)
    }

    /// Puts the line of a record: the one that a writer made, if it is this record's, and else it
    /// is made here.
    fn put_line<T: TextOut>(
        &self,
        out: &mut T,
        conn: u64,
        place: Option<&Place>,
        entry: RecordRef<'_>,
    )
        ensures { Puts T.stands out.old (record_line conn (owned entry.entry)) out.new }
    {
        if let Some(place) = place
            && let Some(text) = self.line_at(*place, conn, entry)
        {
            out.put(text);
        } else {
            put_borrowed_line(out, conn, entry);
        }
    }

    /// Puts the lines of records, whose lines have these places if writers made them.
    fn put_records<T: TextOut>(
        &self,
        out: &mut T,
        conn: u64,
        places: &[Place],
        records: &LoggedRecords,
    )
        ensures { Puts T.stands out.old (record_lines conn records.now) out.new }
    {
        let mut places = places.iter();
        for entry in records.iter() {
            let place = places.next();
            self.put_line(out, conn, place, entry);
        }
    }
}

impl<T: TextOut> EntryLines<T> for MadeLines {
    /// If no writer made a line of the note its lines are put as they are put elsewhere.
    fn put_lines(&self, out: &mut T, entry: &Entry<ServerNote>) {
        if let Entry::Returned {
            event,
            note: ServerNote::Piece { conn, records, .. },
            ..
        } = entry
            && let Some(places) = self.places.of_event(*event)
        {
            self.put_records(out, *conn, places, records);
        } else {
            put_entry_lines(out, entry);
        }
    }
}
