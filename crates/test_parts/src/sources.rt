//! Sources and sinks: how many bytes a read and a write move, and what the adapters do over readers
//! and writers of std, and that they may move to another thread.
use ev_base::{Got, MemSink, MemSource, Sink, Source, StdSink, StdSource, SteadySource, Wrote};
use std::alloc::Global;
use std::io;
use std::io::{Cursor, ErrorKind, Read, Write};
use std::test::Fail;

/// A reader whose first read is interrupted and whose second fails; the later ones are those of the
/// reader below.
#[derive(Drop)]
struct Stumbling<R> {
    below: R,
    reads: u64,
}

impl<R: Read> Read for Stumbling<R> {
    ghost remaining = { λ reader. R.remaining reader.below };

    fn read(&mut self, buf: &mut [u8]) -> io::Result<usize> {
        let number = self.reads;
        self.reads = number.saturating_add(1);
        match number {
            0 => Err(io::Error::from(ErrorKind::Interrupted)),
            1 => Err(io::Error::from(ErrorKind::TimedOut)),
            _ => self.below.read(buf),
        }
    }
}

/// A writer that takes two bytes at most, and fails at its third write.
#[derive(Drop)]
struct Short<W> {
    below: W,
    writes: u64,
}

impl<W: Write> Write for Short<W> {
    ghost contents = { λ writer. W.contents writer.below };

    fn write(&mut self, buf: &[u8]) -> io::Result<usize> {
        let number = self.writes;
        self.writes = number.saturating_add(1);
        if number == 2 {
            return Err(io::Error::from(ErrorKind::TimedOut));
        }
        self.below.write(&buf[..buf.len().min(2)])
    }

    fn flush(&mut self) -> io::Result<()> {
        self.below.flush()
    }
}

fn moves<T: Send>(_value: &T) {}

/// Whether a source that is read into room for three bytes answers this, and gives these bytes.
fn gives<S: Source>(source: &mut S, answers: &[Got], bytes: &[u8]) -> bool {
    let mut buf = [0u8; 3];
    let mut rest = bytes;
    let mut are_well = true;
    for want in answers {
        let got = source.read(&mut buf);
        are_well &= got == *want;
        if let Got::Bytes(count) = got {
            match rest.strip_prefix(&buf[..count.min(3)]) {
                Some(behind) => rest = behind,
                None => are_well = false,
            }
        }
    }
    are_well && rest.is_empty()
}

#[test]
fn a_steady_source_gives_its_bytes(rt: HostRuntime) -> Result<(), Fail> {
    let mut steady = SteadySource::new(b"hello".to_vec(rt.alloc())?);
    let answers = [Got::Bytes(3), Got::Bytes(2), Got::Over, Got::Over];
    let is_well = gives(&mut steady, &answers, b"hello");
    assert!(rt; is_well);
    Ok(())
}

// A source of three pieces, of which one is empty, whose reads 1 and 5 fail.
fn pieces(alloc: Global) -> Result<MemSource, Fail> {
    let fails = [1, 5].to_vec(alloc)?;
    let mut pieces = Vec::new(alloc);
    for piece in [b"ab".as_slice(), b"", b"cdef"] {
        pieces.push(piece.to_vec(alloc)?)?;
    }
    Ok(MemSource::new(pieces, fails))
}

#[test]
fn a_source_in_memory_gives_its_bytes(rt: HostRuntime) -> Result<(), Fail> {
    let mut source = pieces(rt.alloc())?;
    let answers = [
        Got::Bytes(2),
        Got::Failed,
        Got::Bytes(3),
        Got::Bytes(1),
        Got::Over,
        Got::Over,
    ];
    let is_well = gives(&mut source, &answers, b"abcdef");
    assert!(rt; is_well);
    Ok(())
}

#[test]
fn an_adapter_gives_the_bytes_of_its_reader(rt: HostRuntime) -> Result<(), Fail> {
    let below = Cursor::new(b"there".to_vec(rt.alloc())?);
    let mut adapter = StdSource::new(Stumbling { below, reads: 0 });
    moves(&adapter);
    let answers = [Got::Failed, Got::Bytes(3), Got::Bytes(2), Got::Over];
    let is_well = gives(&mut adapter, &answers, b"there");
    assert!(rt; is_well);
    Ok(())
}

const HELLO: &[u8] = b"hello";

/// Writes five bytes, in five writes at most.
fn say_hello<S: Sink>(sink: &mut S) {
    let mut at = 0;
    for _ in 0..5 {
        if at < 5 {
            if let Wrote::Bytes(count) = sink.write(&HELLO[at..]) {
                at += count.min(5 - at);
            }
        }
    }
}

/// Whether a sink in memory takes so many of five bytes.
fn takes(alloc: Global, room: usize, fail_after: Option<u64>, taken: usize) -> Result<bool, Fail> {
    let mut sink = MemSink::new(alloc, room, fail_after).map_err(|_| Fail::from("memory"))?;
    say_hello(&mut sink);
    Ok(sink.bytes() == &HELLO[..taken.min(5)])
}

/// Whether the writes of five bytes answer this.
fn answers<S: Sink>(sink: &mut S, wanted: &[Wrote]) -> bool {
    let mut are_well = true;
    for want in wanted {
        are_well &= sink.write(HELLO) == *want;
    }
    are_well
}

#[test]
fn sinks_take_what_they_have_room_for(rt: HostRuntime) -> Result<(), Fail> {
    for (room, fail_after, taken) in [
        (8, None, 5),
        (8, Some(3), 3),
        (2, Some(3), 2),
        (0, None, 0),
    ] {
        assert!(rt; takes(rt.alloc(), room, fail_after, taken)?);
    }
    let below = Vec::new(rt.alloc());
    let mut adapter = StdSink::new(Short { below, writes: 0 });
    let wanted = [
        Wrote::Bytes(2),
        Wrote::Bytes(2),
        Wrote::Failed,
        Wrote::Bytes(2),
    ];
    let is_well = answers(&mut adapter, &wanted);
    assert!(rt; is_well);
    Ok(())
}
