//! Calls on a stand that are made until something is there, or on many connections.

use crate::stand::{BOTH, Stand};
use demux_mio::MioHost;
use ev_base::{Handle, Host, Kind, ListenRefused, Mask, Report, Sent, Taken};
use std::alloc::Global;
use std::fs::File;
use std::net::IpAddr;

/// What is done, and what it has to come to.
#[derive(Clone, Copy)]
pub enum Course {
    /// Writes to the first connection are made until no room is reported for a while.
    Fill,
    /// The peer of the first connection reads what filled it, and so many bytes more.
    Drain(usize),
    /// Many peers connect and send a byte each.
    ConnectMany,
    AcceptMany,
    AttachMany,
    /// Every connection is reported to read and to write, once each, and 256 of these in one wait.
    GatherAll,
    /// All masks are taken away and given back.
    SetAllMasks,
    /// One of 100 writes to the second connection fails, after a wait each.
    FindOut,
    /// Another host listens on a port that is free, but not on that of the stand.
    Refuse,
    /// If no descriptor is left, accepts fail, and their reports come 100 milliseconds apart at
    /// least.
    Owe,
}

impl Course {
    /// Tells whether it came to what it has to.
    pub fn is_taken(self, stand: &mut Stand) -> bool {
        match self {
            Course::Fill => fill(stand),
            Course::Drain(more) => drain(stand, more),
            Course::ConnectMany => connect_many(stand),
            Course::AcceptMany => accept_many(stand),
            Course::AttachMany => attach_many(stand),
            Course::GatherAll => gathers_all(stand),
            Course::SetAllMasks => set_all_masks(stand),
            Course::FindOut => finds_out(stand),
            Course::Refuse => is_refused(stand.host(), stand.alloc(), stand.port()),
            Course::Owe => owes(stand),
        }
    }
}

const PIECE: usize = 16_384;

const SEVENS: &[u8] = &[7; PIECE];

/// Writes until a write pauses, and tells whether one did.
fn writes_until_paused(stand: &mut Stand) -> bool {
    for _ in 0..10_000 {
        match stand.write(0, SEVENS) {
            Sent::Bytes(count) => stand.add_filled(count),
            Sent::Pause => return true,
            Sent::Failed => return false,
        }
    }
    false
}

fn fill(stand: &mut Stand) -> bool {
    for _ in 0..100 {
        if !writes_until_paused(stand) {
            return false;
        }
        if stand.is_quiet(200) {
            return true;
        }
    }
    false
}

fn drain(stand: &mut Stand, more: usize) -> bool {
    let mut left = stand.filled().saturating_add(more);
    for _ in 0..1_000_000 {
        if left == 0 {
            return true;
        }
        match stand.receive(0, &mut [0; PIECE]) {
            Some(count) if count > 0 => left = left.saturating_sub(count),
            _ => return false,
        }
    }
    false
}

/// How many connections send at once: their reports do not go into one wait.
const MANY: usize = 150;

const PLACES: usize = MANY + 1;

fn connect_many(stand: &mut Stand) -> bool {
    let mut are_well = true;
    for number in 0..MANY {
        are_well &= stand.connect() && stand.send(number, b"x");
    }
    are_well
}

fn accept_many(stand: &mut Stand) -> bool {
    let mut are_well = true;
    for _ in 0..MANY {
        are_well = are_well && stand.accept_one();
    }
    are_well
}

fn attach_many(stand: &mut Stand) -> bool {
    let mut are_well = true;
    for number in 0..MANY {
        are_well &= stand.attach(number, BOTH);
    }
    are_well
}

fn set_all_masks(stand: &mut Stand) -> bool {
    let mut are_well = true;
    for number in 0..MANY {
        are_well &= stand.set_mask(number, Mask::NONE);
        are_well &= stand.set_mask(number, BOTH);
    }
    are_well
}

/// Which reports came: by handle, one bit for each kind. Beside that, how many came, how many a
/// wait gave at most, and whether each came once and no wait failed.
#[derive(Drop)]
struct Gathered {
    seen: [u8; PLACES],
    count: usize,
    most: usize,
    are_well: bool,
}

impl Gathered {
    fn mark(&mut self, report: &Report) {
        let Handle(handle) = report.handle;
        let bit = match report.kind {
            Kind::Read => 1,
            Kind::Write => 2,
            Kind::Except => 4,
        };
        match self.seen.get_mut(handle as usize) {
            Some(place) => {
                self.are_well &= *place & bit == 0;
                *place |= bit;
            }
            None => self.are_well = false,
        }
    }

    /// Marks the reports of a wait.
    fn mark_all(&mut self, reports: &[Report]) {
        self.most = self.most.max(reports.len());
        self.count = self.count.saturating_add(reports.len());
        for report in reports {
            self.mark(report);
        }
    }

    /// Whether each connection was reported once to read and once to write, and nothing else.
    fn is_whole(&self) -> bool {
        self.are_well && self.count == 2 * MANY && self.most == 256 && self.seen[1..] == [3; MANY]
    }
}

fn gathers_all(stand: &mut Stand) -> bool {
    let mut gathered = Gathered {
        seen: [0; PLACES],
        count: 0,
        most: 0,
        are_well: true,
    };
    for _ in 0..100 {
        if gathered.count < 2 * MANY {
            gathered.are_well &= stand.wait(Some(10_000)).is_some();
            gathered.mark_all(stand.reports());
        }
    }
    gathered.is_whole() && stand.is_quiet(0)
}

fn finds_out(stand: &mut Stand) -> bool {
    for _ in 0..100 {
        let _ = stand.wait(Some(10));
        if stand.write(1, b"hello") == Sent::Failed {
            return true;
        }
    }
    false
}

/// Whether a host listens on this port, for a moment.
fn listen(host: &mut MioHost<HostRuntime>, alloc: Global, port: u16) -> Result<(), ListenRefused> {
    match host.listen(alloc, port) {
        Ok(_) => Ok(()),
        Err(refused) => Err(refused),
    }
}

fn is_refused(mut host: MioHost<HostRuntime>, alloc: Global, port: u16) -> bool {
    let taken = listen(&mut host, alloc, port);
    let free = listen(&mut host, alloc, 0);
    // An address for documents (RFC 5737), which no interface has.
    host.set_address(IpAddr::from([203, 0, 113, 1]));
    let foreign = listen(&mut host, alloc, 0);
    taken == Err(ListenRefused::Failed) && free == Ok(()) && foreign == Err(ListenRefused::Failed)
}

/// Opens files until no descriptor is left. Nothing, if many more than a process mostly has are
/// left.
fn use_up(rt: HostRuntime, alloc: Global) -> Option<Vec<File>> {
    let mut files = Vec::new(alloc);
    for _ in 0..30_000 {
        match File::open(&rt, "/dev/null") {
            Ok(file) => files.push(file).ok()?,
            Err(_) => return Some(files),
        }
    }
    None
}

fn owes(stand: &mut Stand) -> bool {
    match use_up(stand.runtime(), stand.alloc()) {
        Some(files) => {
            let is_owed = is_owed(stand);
            drop(files);
            is_owed
        }
        None => true,
    }
}

fn is_owed(stand: &mut Stand) -> bool {
    let first = stand.sees_at(0, Kind::Read);
    let fails = matches!(stand.accept(), Taken::Failed);
    let second = stand.sees_at(0, Kind::Read);
    let fails_again = matches!(stand.accept(), Taken::Failed);
    fails && fails_again && is_later(first, second)
}

fn is_later(first: Option<u64>, second: Option<u64>) -> bool {
    match (first, second) {
        (Some(first), Some(second)) => second >= first.saturating_add(100),
        _ => false,
    }
}
