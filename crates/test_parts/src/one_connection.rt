//! The end and the net of one connection: how many bytes a read gives, and that they do their work
//! if memory is ample.
use ev_base::{
    Got, Handle, Kind, Mask, MemSource, Net, PeerEnd, Report, Sent, Source, SteadySource, Waited,
};
use one_net::{OneEnd, OneNet};
use std::alloc::Global;
use std::test::Fail;

/// What reads of an end with room for 8 bytes answer, and whether it met a byte past its limit
/// and a failed read of its source then.
struct Reads {
    answers: &'static [Got],
    is_too_long: bool,
    has_failed: bool,
}

/// Whether the reads of an end answer this.
fn gives<E: PeerEnd>(end: &mut E, answers: &[Got]) -> bool {
    let mut are_well = true;
    for want in answers {
        are_well &= !end.is_listener() && end.read(&mut [0; 8]) == *want;
    }
    are_well
}

/// Whether an end comes to this.
fn comes_to<S: Source>(end: &mut OneEnd<S>, rows: &[Reads]) -> bool {
    let mut are_well = true;
    for row in rows {
        are_well &= gives(end, row.answers);
        are_well &= end.is_too_long() == row.is_too_long;
        are_well &= end.has_failed() == row.has_failed;
    }
    are_well
}

const LETTERS: &[u8] = b"0123456789abcdefghijklmnopqrstuvwxyz";

/// The reads of 30 bytes.
const WHOLE: Reads = Reads {
    answers: &[Got::Bytes(8), Got::Bytes(8), Got::Bytes(8), Got::Bytes(6)],
    is_too_long: false,
    has_failed: false,
};

static ONE_MORE: &[Reads] = &[
    WHOLE,
    Reads {
        answers: &[Got::Failed, Got::Failed],
        is_too_long: true,
        has_failed: false,
    },
];

static NO_MORE: &[Reads] = &[
    WHOLE,
    Reads {
        answers: &[Got::Over, Got::Over],
        is_too_long: false,
        has_failed: false,
    },
];

/// The reads of an end of at most 4 bytes over a source of two pieces whose second read fails.
static IN_PIECES: &[Reads] = &[
    Reads {
        answers: &[Got::Bytes(3)],
        is_too_long: false,
        has_failed: false,
    },
    Reads {
        answers: &[Got::Failed, Got::Bytes(1)],
        is_too_long: false,
        has_failed: true,
    },
    Reads {
        answers: &[Got::Failed],
        is_too_long: true,
        has_failed: true,
    },
];

/// An end of at most 30 bytes over so many.
fn end_of(alloc: Global, bytes: usize) -> Result<OneEnd<SteadySource>, Fail> {
    let input = LETTERS[..bytes.min(36)].to_vec(alloc)?;
    Ok(OneEnd::new(SteadySource::new(input), 30))
}

#[test]
fn an_end_fails_behind_its_limit(rt: HostRuntime) -> Result<(), Fail> {
    let mut end = end_of(rt.alloc(), 31)?;
    let is_well = comes_to(&mut end, ONE_MORE);
    assert!(rt; is_well);
    Ok(())
}

/// Whether an end that is no listener takes nothing.
fn takes_none<E: PeerEnd>(end: &mut E) -> bool {
    !end.is_listener() && end.write(b"hello") == Sent::Pause
}

#[test]
fn an_end_gives_as_many_bytes_as_its_limit(rt: HostRuntime) -> Result<(), Fail> {
    let mut end = end_of(rt.alloc(), 30)?;
    let is_well = comes_to(&mut end, NO_MORE) && takes_none(&mut end);
    assert!(rt; is_well);
    Ok(())
}

/// A source of two pieces whose second read fails.
fn pieces(alloc: Global) -> Result<MemSource, Fail> {
    let fails = [1].to_vec(alloc)?;
    let mut pieces = Vec::new(alloc);
    for piece in [b"abc".as_slice(), b"de".as_slice()] {
        pieces.push(piece.to_vec(alloc)?)?;
    }
    Ok(MemSource::new(pieces, fails))
}

#[test]
fn an_end_tells_a_failed_read_from_its_limit(rt: HostRuntime) -> Result<(), Fail> {
    let mut end = OneEnd::new(pieces(rt.alloc())?, 4);
    let is_well = comes_to(&mut end, IN_PIECES);
    assert!(rt; is_well);
    Ok(())
}

#[test]
fn the_end_is_reported_until_it_is_retired(rt: HostRuntime) -> Result<(), Fail> {
    let alloc = rt.alloc();
    let mut end = OneEnd::new(SteadySource::new(b"hello".to_vec(alloc)?), 8);
    let mut net = OneNet::new(alloc);
    if net.reserve(1).is_err() {
        net.close();
        return Err(Fail::from("memory"));
    }
    match net.attach(&mut end, Handle(0), Mask::READ) {
        Ok(()) => {}
        Err(_) => unreachable!(),
    }
    let waited = net.wait(Some(0));
    let is_reported = waited == Waited::Reports { now: 0, count: 1 };
    let report = Report {
        handle: Handle(0),
        kind: Kind::Read,
    };
    assert!(rt; is_reported);
    let is_read = net.report(0) == report;
    net.retire(Handle(0), end);
    let is_over = net.wait(None) == Waited::Over { now: 0 };
    let mut source = net.into_retired().into_input();
    let is_given = source.read(&mut [0; 8]) == Got::Bytes(5);
    assert!(rt; is_read && is_over && is_given);
    Ok(())
}
