//! Steps of rows, which are taken one after the other.

use crate::asserts::assert_in;
use crate::courses::Course;
use crate::stand::Stand;
use ev_base::{Got, Kind, Mask, Sent, Taken};
use std::process::Abort;
use std::test::Fail;

/// A call on a stand, and what it has to come to. A number is that of a connection.
#[derive(Clone, Copy)]
pub enum Step {
    /// The listener is watched, on a port that was free.
    Watch,
    /// A peer connects.
    Connect,
    /// A connection is accepted, after waits if none is there yet.
    AcceptOne,
    /// No connection waits to be accepted.
    AcceptPauses,
    /// A peer connects, and its connection is accepted and attached. No other waits.
    Join(Mask),
    Attach(usize, Mask),
    SetMask(usize, Mask),
    /// A wait gives one report, of this handle and kind.
    Sees(u64, Kind),
    /// A wait of so many milliseconds gives no report.
    Quiet(u64),
    /// A read into all the room answers this.
    Read(usize, Got),
    /// The room is full of this byte.
    Holds(u8),
    Write(usize, &'static [u8], Sent),
    Retire(usize),
    /// A peer sends bytes.
    Send(usize, &'static [u8]),
    /// A peer reads so many bytes.
    Receive(usize, usize),
    /// A peer closes its connection.
    HangUp(usize),
    /// Steps on more than a call.
    All(Course),
}

impl Step {
    /// Takes the step, and tells whether it came to what it has to.
    fn is_taken(self, stand: &mut Stand, room: &mut [u8]) -> bool {
        match self {
            Step::Watch => stand.watch(),
            Step::Connect => stand.connect(),
            Step::AcceptOne => stand.accept_one(),
            Step::AcceptPauses => matches!(stand.accept(), Taken::Pause),
            Step::Join(mask) => stand.join(mask),
            Step::Attach(number, mask) => stand.attach(number, mask),
            Step::SetMask(number, mask) => stand.set_mask(number, mask),
            Step::Sees(handle, kind) => stand.sees(handle, kind),
            Step::Quiet(most_ms) => stand.is_quiet(most_ms),
            Step::Read(number, got) => stand.read(number, room) == got,
            Step::Write(number, piece, sent) => stand.write(number, piece) == sent,
            Step::Retire(number) => stand.retire(number),
            Step::Send(number, bytes) => stand.send(number, bytes),
            Step::Receive(number, count) => stand.receive(number, room) == Some(count),
            Step::HangUp(number) => stand.hang_up(number),
            Step::Holds(byte) => is_full_of(room, byte),
            Step::All(course) => course.is_taken(stand),
        }
    }
}

/// Whether each byte is this one.
fn is_full_of(room: &[u8], byte: u8) -> bool {
    let mut is_full = !room.is_empty();
    for held in room {
        is_full &= *held == byte;
    }
    is_full
}

/// Takes these steps, up to one that does not come to what it has to, and tells how many did. Reads
/// have this room.
fn count_taken(stand: &mut Stand, room: &mut [u8], steps: &[Step]) -> usize {
    for (at, step) in steps.iter().enumerate() {
        if !step.is_taken(stand, room) {
            return at;
        }
    }
    steps.len()
}

/// The same on a stand of its own.
fn count_taken_alone(host: HostRuntime, room: &mut [u8], steps: &[Step]) -> Result<usize, Fail> {
    let (mut stand, _) = Stand::open(host, host.alloc())?;
    Ok(count_taken(&mut stand, room, steps))
}

/// Takes these steps on a stand of their own.
pub fn take(
    rt: &impl Abort,
    host: HostRuntime,
    room: &mut [u8],
    steps: &[Step],
) -> Result<(), Fail> {
    let at = count_taken_alone(host, room, steps)?;
    assert_in(rt, at, at == steps.len());
    Ok(())
}
