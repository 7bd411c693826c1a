//! Where things stand in the picture. Its numbers are the units of the picture's `viewBox`; one
//! above `u64::MAX` is told as `u64::MAX`.
ghost use Rattle.std.specs.Prelude.{◌≡◌};
ghost use Rattle.journal_picture.specs.Layouts as L;

/// Where the first entry stands. Left of it is room for the names of the lanes.
const LEFT: u64 = 90;

/// Where the middle of the reactor's own lane stands. Above it are the legend and the axis.
const TOP: u64 = 140;

/// How far it is from one lane to the next.
const PITCH: u64 = 22;

/// The least width, in which the legend has room.
const LEAST_WIDTH: u64 = 1_000;

/// How the entries and lanes are spread.
#[derive(Clone, Copy)]
pub(crate) struct Layout {
    /// How far it is from one entry to the next.
    pub step: u64,
    /// How many entries there are.
    pub entries: u64,
    /// How many handles have a lane. Lane 0 is the reactor's own, and lane `h + 1` that of handle
    /// `h`.
    pub handles: u64,
}

impl Layout {
    /// The layout for so many entries and handles: the more entries there are, the closer they
    /// stand.
    pub(crate) fn of(entries: u64, handles: u64) -> Layout
        ensures { result ≡ L.layout_of entries handles }
    {
        Layout {
            step: step_for(entries),
            entries,
            handles,
        }
    }

    /// Where the entry of this number stands, from the left.
    pub(crate) fn across(self, number: u64) -> u64
        ensures { result ≡ L.across self number }
    {
        self.step.saturating_mul(number).saturating_add(LEFT)
    }

    /// Where the lanes end on the right.
    pub(crate) fn right(self) -> u64
        ensures { result ≡ L.right self }
    {
        self.across(self.entries).saturating_add(10)
    }

    /// Where the lanes end below.
    pub(crate) fn bottom(self) -> u64
        ensures { result ≡ L.bottom self }
    {
        down(self.handles).saturating_add(16)
    }

    /// The width of the picture.
    pub(crate) fn width(self) -> u64
        ensures { result ≡ L.width self }
    {
        self.right().saturating_add(30).max(LEAST_WIDTH)
    }

    /// The height of the picture.
    pub(crate) fn height(self) -> u64
        ensures { result ≡ L.height self }
    {
        self.bottom().saturating_add(16)
    }
}

/// How far it is from one of so many entries to the next: a picture of 100,000 entries is not wider
/// than a browser draws.
fn step_for(entries: u64) -> u64
    ensures { result ≡ L.step_for entries }
{
    if entries <= 4_000 {
        12
    } else if entries <= 30_000 {
        4
    } else {
        1
    }
}

/// Where the middle of a lane stands, from above.
pub(crate) fn down(lane: u64) -> u64
    ensures { result ≡ L.down lane }
{
    lane.saturating_mul(PITCH).saturating_add(TOP)
}
