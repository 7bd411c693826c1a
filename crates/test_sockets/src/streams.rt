//! What streams carry, and which reports they give.

use crate::courses::Course;
use crate::steps::{Step, take};
use ev_base::{Got, Kind, Mask, Sent};
use std::test::Fail;

/// Four reads after a report give 100 bytes each, and the next pauses.
static STREAM: &[Step] = &[
    Step::Watch,
    Step::Quiet(0),
    Step::Join(Mask::READ),
    Step::Send(0, &[7; 1000]),
    Step::Sees(1, Kind::Read),
    Step::Read(0, Got::Bytes(100)),
    Step::Read(0, Got::Bytes(100)),
    Step::Read(0, Got::Bytes(100)),
    Step::Read(0, Got::Bytes(100)),
    Step::Read(0, Got::Pause),
    Step::Sees(1, Kind::Read),
    Step::Read(0, Got::Bytes(100)),
    Step::Read(0, Got::Bytes(100)),
    Step::Read(0, Got::Bytes(100)),
    Step::Read(0, Got::Bytes(100)),
    Step::Read(0, Got::Pause),
    // The 200 bytes that two rows left, and then 400 others and the end.
    Step::Sees(1, Kind::Read),
    Step::Read(0, Got::Bytes(100)),
    Step::Read(0, Got::Bytes(100)),
    Step::Read(0, Got::Pause),
    Step::Quiet(0),
    Step::Send(0, &[8; 400]),
    Step::HangUp(0),
    Step::Sees(1, Kind::Read),
    Step::Read(0, Got::Bytes(100)),
    Step::Read(0, Got::Bytes(100)),
    Step::Read(0, Got::Bytes(100)),
    Step::Read(0, Got::Bytes(100)),
    Step::Holds(8),
    Step::Read(0, Got::Pause),
    // The end after a row is reported too.
    Step::Sees(1, Kind::Read),
    Step::Read(0, Got::Over),
    Step::Read(0, Got::Over),
];

#[test]
fn a_stream_pauses_behind_four_reads_and_is_reported_again(rt: HostRuntime) -> Result<(), Fail> {
    take(&rt, rt, &mut [0; 100], STREAM)
}

#[test]
fn what_comes_before_the_attach_is_reported(rt: HostRuntime) -> Result<(), Fail> {
    take(&rt, rt, &mut [0; 100], SENT_BEFORE)
}

static SENT_BEFORE: &[Step] = &[
    Step::Watch,
    Step::Connect,
    Step::Send(0, b"all"),
    Step::HangUp(0),
    Step::AcceptOne,
    Step::Attach(0, Mask::READ),
    Step::Sees(1, Kind::Read),
    Step::Read(0, Got::Bytes(3)),
    Step::Read(0, Got::Over),
];

/// One peer leaves bytes unread, so that its side is reset. Another closes in order: the first
/// write reaches nobody.
static GONE: &[Step] = &[
    Step::Watch,
    Step::Join(Mask::READ),
    Step::Write(0, b"hello", Sent::Bytes(5)),
    Step::HangUp(0),
    Step::Sees(1, Kind::Read),
    Step::Read(0, Got::Failed),
    Step::Write(0, b"hello", Sent::Failed),
    Step::Retire(0),
    Step::Join(Mask::READ),
    Step::HangUp(1),
    Step::Write(1, b"hello", Sent::Bytes(5)),
    Step::All(Course::FindOut),
];

#[test]
fn a_peer_that_is_gone_is_a_fault(rt: HostRuntime) -> Result<(), Fail> {
    take(&rt, rt, &mut [0; 100], GONE)
}

static RETIRED: &[Step] = &[
    Step::Watch,
    Step::Join(Mask::READ),
    Step::Write(0, b"hello", Sent::Bytes(5)),
    Step::Retire(0),
    Step::Receive(0, 5),
    Step::Receive(0, 0),
    Step::Quiet(0),
];

#[test]
fn a_retired_end_is_closed(rt: HostRuntime) -> Result<(), Fail> {
    take(&rt, rt, &mut [0; 100], RETIRED)
}
