//! Where the lines of an event's records are found.

use crate::line::{Line, Lines};
use ev_base::NoMemory;
use server_run::{Entry, ServerNote};
use std::alloc::Global;

/// In the place of a number: there is none.
const NONE: u32 = u32::MAX;

/// Where a line is found: which lines it is among, and its number there.
#[derive(Clone, Copy, Debug)]
pub(crate) struct Place {
    pub(crate) lines: u32,
    pub(crate) number: u32,
}

impl Place {
    /// That of a line that no writer made.
    fn none() -> Place {
        Place {
            lines: NONE,
            number: NONE,
        }
    }

    /// This one, if numbers so small are kept.
    fn of(lines: usize, number: usize) -> Option<Place> {
        let lines = u32::try_from(lines).ok()?;
        let number = u32::try_from(number).ok()?;
        Some(Place { lines, number })
    }

    /// Whether a writer made the line.
    fn is_made(&self) -> bool {
        self.lines != NONE
    }
}

/// The places of the lines of each event, in the order of its records. No contract speaks of them:
/// a line that is found is used only if it is that of its record.
#[derive(Drop)]
pub(crate) struct Places {
    /// For each event the place of its first line among all, and at the end how many there are.
    first: Vec<usize>,
    all: Vec<Place>,
}

impl Places {
    /// No places. It takes no memory.
    pub(crate) fn none(alloc: Global) -> Places {
        Places {
            first: Vec::new(alloc),
            all: Vec::new(alloc),
        }
    }

    /// Those of lines that writers made for the records of these entries.
    pub(crate) fn of(
        alloc: Global,
        made: &[Lines],
        entries: &[Entry<ServerNote>],
    ) -> Result<Places, NoMemory> {
        let mut first = counts(alloc, entries)?;
        let count = sum_up(&mut first);
        let all = vec![in alloc; Place::none(); count]?;
        let mut places = Places { first, all };
        for (at, lines) in made.iter().enumerate() {
            places.add(at, lines.as_slice());
        }
        Ok(places)
    }

    /// Adds the places of lines, which are those of this number.
    fn add(&mut self, at: usize, lines: &[Line]) {
        for (number, line) in lines.iter().enumerate() {
            if let Some(place) = Place::of(at, number) {
                self.set(line.event, line.index, place);
            }
        }
    }

    /// Sets the place of a line, if its event has a record of this number.
    fn set(&mut self, event: u64, index: u64, place: Place) {
        if let Some((start, end)) = self.range(event)
            && let Some(at) = start.checked_add(index as usize)
            && at < end
            && let Some(kept) = self.all.get_mut(at)
        {
            *kept = place;
        }
    }

    /// From where to where the places of an event stand.
    fn range(&self, event: u64) -> Option<(usize, usize)> {
        let event = event as usize;
        let start = self.first.get(event)?;
        let end = self.first.get(event.checked_add(1)?)?;
        Some((*start, *end))
    }

    /// The places of an event's lines, if a writer made one of them.
    pub(crate) fn of_event(&self, event: u64) -> Option<&[Place]> {
        let (start, end) = self.range(event)?;
        let places = self.all.get(start..end)?;
        if places.iter().any(Place::is_made) {
            Some(places)
        } else {
            None
        }
    }
}

/// How many records each event has that may have been told in so many entries, and 0 at the end.
fn counts(alloc: Global, entries: &[Entry<ServerNote>]) -> Result<Vec<usize>, NoMemory> {
    let mut counts = vec![in alloc; 0usize; entries.len().saturating_add(1)]?;
    for entry in entries {
        if let Entry::Returned {
            event,
            note: ServerNote::Piece { records, .. },
            ..
        } = entry
            && let Some(count) = counts.get_mut(*event as usize)
        {
            *count = records.len();
        }
    }
    Ok(counts)
}

/// Puts in the place of each number the sum of those before it, and gives the sum of all.
fn sum_up(numbers: &mut [usize]) -> usize {
    let mut sum = 0usize;
    for number in numbers {
        let next = sum.saturating_add(*number);
        *number = sum;
        sum = next;
    }
    sum
}
