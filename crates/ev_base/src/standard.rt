//! Adapters over the readers and writers of the standard library: the trusted edge for standard
//! input and output. They tell how many bytes they gave, but not which. Over a reader or writer of
//! std that knows its bytes, their own clauses say that they give, and write, exactly these.
ghost use Rattle.std.specs.Prelude.{◌≡◌, ◌<◌, ℕ, length, None, false, OnErr};
ghost use Rattle.std.specs.Io.{ReadsAtMost, WritesAtMost};
ghost use Rattle.std.specs.Io.KnownBytes.{Keeps, ReadConsumes, WriteAppends};
ghost use Rattle.ev_base.specs.Standard.{ReadsFrom, WritesTo};

use super::{Got, Sink, Source, Wrote};
use ghost_log::Tally;
use std::io;
use std::io::{ErrorKind, Read, Write};

/// How often an interrupted call is tried again.
const TRIES: usize = 64;

/// A source over a reader. An interrupted read is tried again at most 64 times; any other error, or
/// one try more, is a fault, which the adapter counts.
#[derive(Drop)]
pub struct StdSource<R> {
    inner: R,
    faults: u64,
    over: bool,
    // How many bytes it gave.
    gave: Tally,
}

impl<R: Read> StdSource<R> {
    ghost use Rattle.ev_base.specs.Adapters.{std_source_facts, reader_of};

    /// A source over this reader, without a fault, which has given nothing.
    pub fn new(inner: R) -> StdSource<R>
        ensures facts { std_source_facts result ≡ record {
          faults = 0;
          gave = 0;
          over = false;
          bytes = None;
        } }
        ensures reader { reader_of result ≡ inner }
    {
        StdSource {
            inner,
            faults: 0,
            over: false,
            gave: Tally::none(),
        }
    }
}

impl<R: Read> Source for StdSource<R> {
    ghost use Rattle.ev_base.specs.Source.{Reads};
    ghost use Rattle.ev_base.specs.Adapters.{std_source_facts, reader_of, is_over};

    ghost facts = { std_source_facts };

    fn read(&mut self, buf: &mut [u8]) -> Got
        requires { 0 < length buf.old }
        ensures reads { Reads (std_source_facts self.old) buf.new result
            (std_source_facts self.new) }
        ensures reader { ReadsFrom (is_over self.old) (R.remaining (reader_of self.old)) buf.new
            result (R.remaining (reader_of self.new)) }
    {
        if self.over {
            return Got::Over;
        }
        match read_again(&mut self.inner, buf) {
            Ok(0) => {
                self.over = true;
                Got::Over
            }
            Ok(count) => {
                self.gave.add(count);
                Got::Bytes(count)
            }
            Err(_) => {
                self.faults = self.faults.saturating_add(1);
                Got::Failed
            }
        }
    }
}

/// A read that is tried again while it is interrupted, at most 64 times.
pub fn read_again<R: Read>(inner: &mut R, buf: &mut [u8]) -> io::Result<usize>
    ensures bound { ReadsAtMost result buf.new }
    ensures bytes { ReadConsumes (R.remaining inner.old) (R.remaining inner.new) result buf.new }
{
    for _ in 1..TRIES {
        match inner.read(buf) {
            Err(error) if error.kind() == ErrorKind::Interrupted => {}
            outcome => return outcome,
        }
    }
    inner.read(buf)
}

/// A sink over a writer. It flushes after each write. An interrupted write or flush is tried again
/// at most 64 times; any other error, one try more, or a writer that takes nothing is a fault,
/// which the adapter counts.
#[derive(Drop)]
pub struct StdSink<W> {
    inner: W,
    faults: u64,
}

impl<W: Write> StdSink<W> {
    ghost use Rattle.ev_base.specs.Adapters.{std_sink_facts, writer_of};

    /// A sink over this writer, without a fault.
    pub fn new(inner: W) -> StdSink<W>
        ensures facts { std_sink_facts result ≡ record { faults = 0; text = None } }
        ensures writer { writer_of result ≡ inner }
    {
        StdSink { inner, faults: 0 }
    }
}

impl<W: Write> Sink for StdSink<W> {
    ghost use Rattle.ev_base.specs.Sink.{Writes};
    ghost use Rattle.ev_base.specs.Adapters.{std_sink_facts, writer_of};

    ghost facts = { std_sink_facts };

    fn write(&mut self, piece: &[u8]) -> Wrote
        requires { 0 < length piece.now }
        ensures writes { Writes (std_sink_facts self.old) piece.now result
            (std_sink_facts self.new) }
        ensures writer { WritesTo (W.contents (writer_of self.old)) piece.now result
            (W.contents (writer_of self.new)) }
    {
        match write_again(&mut self.inner, piece) {
            Ok(count) if count > 0 => Wrote::Bytes(count),
            _ => {
                self.faults = self.faults.saturating_add(1);
                Wrote::Failed
            }
        }
    }
}

/// A write and a flush, each tried again while it is interrupted, at most 64 times.
fn write_again<W: Write>(inner: &mut W, piece: &[u8]) -> io::Result<usize>
    ensures bound { WritesAtMost result piece.now }
    ensures ok { (n : ℕ) → result ≡ Ok n → WritesTo (W.contents inner.old) piece.now (Wrote.Bytes n)
        (W.contents inner.new) }
    ensures err { OnErr result (WritesTo (W.contents inner.old) piece.now Wrote.Failed
        (W.contents inner.new)) }
{
    let count = write_some(inner, piece)?;
    flush_again(inner)?;
    Ok(count)
}

/// A write that is tried again while it is interrupted, at most 64 times.
pub fn write_some<W: Write>(inner: &mut W, piece: &[u8]) -> io::Result<usize>
    ensures bound { WritesAtMost result piece.now }
    ensures bytes { WriteAppends (W.contents inner.old) (W.contents inner.new) result piece.now }
{
    for _ in 1..TRIES {
        match inner.write(piece) {
            Err(error) if error.kind() == ErrorKind::Interrupted => {}
            outcome => return outcome,
        }
    }
    inner.write(piece)
}

fn flush_again<W: Write>(inner: &mut W) -> io::Result<()>
    ensures { Keeps (W.contents inner.old) (W.contents inner.new) }
{
    for _ in 1..TRIES {
        match inner.flush() {
            Err(error) if error.kind() == ErrorKind::Interrupted => {}
            outcome => return outcome,
        }
    }
    inner.flush()
}
