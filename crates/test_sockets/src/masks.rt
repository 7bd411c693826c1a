//! Reports that a mask holds back, and what a wait gives at most.

use crate::courses::Course;
use crate::stand::BOTH;
use crate::steps::{Step, take};
use ev_base::{Got, Kind, Mask, Sent};
use std::test::Fail;

static READS_HELD_BACK: &[Step] = &[
    Step::Watch,
    Step::Join(Mask::NONE),
    Step::Send(0, b"hello"),
    Step::Quiet(50),
    Step::SetMask(0, Mask::READ),
    Step::Sees(1, Kind::Read),
    Step::Read(0, Got::Bytes(2)),
    // No read paused yet, so it is still ready when the mask has the kind again.
    Step::SetMask(0, Mask::NONE),
    Step::Quiet(0),
    Step::SetMask(0, Mask::READ),
    Step::Sees(1, Kind::Read),
    Step::Quiet(0),
    Step::Read(0, Got::Bytes(2)),
    Step::Read(0, Got::Bytes(1)),
    Step::Read(0, Got::Pause),
    Step::SetMask(0, Mask::NONE),
    Step::SetMask(0, Mask::READ),
    Step::Quiet(0),
    Step::SetMask(0, Mask::NONE),
    Step::Send(0, b"more"),
    Step::Quiet(50),
    Step::SetMask(0, Mask::READ),
    Step::Sees(1, Kind::Read),
];

#[test]
fn reads_are_held_back_and_remembered(rt: HostRuntime) -> Result<(), Fail> {
    take(&rt, rt, &mut [0; 2], READS_HELD_BACK)
}

static WRITES_HELD_BACK: &[Step] = &[
    Step::Watch,
    Step::Join(Mask::READ),
    Step::Quiet(0),
    Step::SetMask(0, BOTH),
    Step::Sees(1, Kind::Write),
    Step::Quiet(0),
    Step::Write(0, b"hello", Sent::Bytes(5)),
    Step::SetMask(0, Mask::READ),
    Step::SetMask(0, BOTH),
    Step::Sees(1, Kind::Write),
    Step::Quiet(0),
    Step::Write(0, b"hello", Sent::Bytes(5)),
    Step::SetMask(0, Mask::READ),
    Step::SetMask(0, BOTH),
    Step::Sees(1, Kind::Write),
    Step::All(Course::Fill),
    // While no write would go on, a mask that is set again gives no report.
    Step::SetMask(0, Mask::READ),
    Step::SetMask(0, BOTH),
    Step::Quiet(0),
    Step::All(Course::Drain(10)),
    Step::Sees(1, Kind::Write),
    Step::Write(0, b"hello", Sent::Bytes(5)),
];

#[test]
fn writes_are_held_back_and_remembered(rt: HostRuntime) -> Result<(), Fail> {
    take(&rt, rt, &mut [], WRITES_HELD_BACK)
}

static MANY_REPORTS: &[Step] = &[
    Step::Watch,
    Step::All(Course::ConnectMany),
    Step::All(Course::AcceptMany),
    Step::All(Course::AttachMany),
    Step::All(Course::GatherAll),
    // All masks at once owe more reports than a wait gives.
    Step::All(Course::SetAllMasks),
    Step::All(Course::GatherAll),
];

#[test]
fn reports_that_do_not_go_into_one_wait_come_with_the_next(rt: HostRuntime) -> Result<(), Fail> {
    take(&rt, rt, &mut [], MANY_REPORTS)
}
