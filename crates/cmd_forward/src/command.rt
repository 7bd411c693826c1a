//! The command.
ghost use Rattle.std.specs.Prelude.{◌≡◌, ◌++◌, ◌∷◌, [], Some, map};
ghost use Rattle.std.specs.String.{string_bytes};
ghost use Rattle.cmd_line.specs.Given.{Text};
ghost use Rattle.std.specs.Prelude.{List};
ghost use Rattle.reactor_core.specs.Ends.{WhereTold};
ghost use Rattle.connector_run.specs.Waits.{AskedUntil};
ghost use Rattle.cmd_forward.specs.Answers.{DialsPort, HasAnswered, IsUnbegun, LimitsWaits};
ghost use Rattle.cmd_forward.specs.Telling.{HasNumbers, IsTold};
ghost use Rattle.cmd_forward.specs.Words.{AreInRange, forward_of};

use crate::outcome::Outcome;
use crate::running::{Ran, forward};
use crate::totals::write_totals;
use crate::words::ForwardOptions;
use ev_base::{DialRefused, Dialer, NoMemory, Sink, Source};
use std::alloc::Global;
use std::sync::Wait;

/// What `forward_main` leaves.
#[derive(Drop)]
pub struct Forwarded<M, S, K> {
    /// The code with which the program ends.
    pub status: u8,
    /// The number that goes with it.
    pub at: u64,
    /// The net of the connection, if one was begun.
    pub net: Option<M>,
    /// The source that was handed in.
    pub input: S,
    /// The sink that was handed in.
    pub output: K,
}

/// The command `logd forward` (C++NPv2 chapter 7, the client logging daemon): takes records from a
/// source and sends them to a peer, over a connection that the dialler begins to the port that the
/// words name.
///
/// Each record is sent in its canonical spelling. Once the source is read to its end and all is
/// sent, the two lines `records R` and `bytes T` are written to the output; with another status
/// than 0 nothing is, but for a front of them if a write failed. At most 2^40 bytes of the source
/// are read, and one more to see whether it is there. Of several faults of a run the least status
/// is answered. The source and the sink come back whatever happens. Until the connection has been
/// waited for as long as the words say, each wait of the net is asked with exactly the time that is
/// left; from then on it lasts until something is reported.
pub fn forward_main<R: Wait, D: Dialer, S: Source, K: Sink>(
    rt: &R,
    alloc: Global,
    words: &[String],
    dialer: &mut D,
    input: S,
    output: K,
) -> Forwarded<D::Net, S, K>
where
    D::End: Drop,
    ensures answers { HasAnswered D.End.tells D.Net.facts S.facts K.facts
        (map string_bytes words.now) (D.faults dialer.old) (D.faults dialer.new) input output
        result }
    ensures dials { DialsPort (map string_bytes words.now) (D.ports dialer.old)
        (D.ports dialer.new) result }
    ensures waits { LimitsWaits D.Net.facts (map string_bytes words.now) result }
{
    match ForwardOptions::of(alloc, words) {
        Ok(Some(options)) => dial(rt, alloc, options, dialer, input, output),
        Ok(None) => unbegun(Outcome::Usage, input, output),
        Err(NoMemory) => unbegun(Outcome::NoMemory, input, output),
    }
}

// Begins a connection as the words say, and runs over it.
fn dial<R: Wait, D: Dialer, S: Source, K: Sink>(
    rt: &R,
    alloc: Global,
    options: ForwardOptions,
    dialer: &mut D,
    input: S,
    output: K,
) -> Forwarded<D::Net, S, K>
where
    D::End: Drop,
    requires { AreInRange options }
    ensures answers { (words : List Text) → forward_of words ≡ Some options
        → HasAnswered D.End.tells D.Net.facts S.facts K.facts words
        (D.faults dialer.old) (D.faults dialer.new) input output result }
    ensures dials { D.ports dialer.new ≡ D.ports dialer.old ++ options.port ∷ [] }
    ensures waits { (net : D.Net) → result.net ≡ Some net
        → WhereTold (AskedUntil options.wait) (D.Net.facts net).calls }
{
    match dialer.dial(alloc, options.port) {
        Ok((net, end)) => tell(forward(rt, alloc, net, end, input, options.wait), output),
        Err(DialRefused::Failed) => unbegun(Outcome::PeerFault, input, output),
        Err(DialRefused::NoMemory) => unbegun(Outcome::NoMemory, input, output),
    }
}

// What is left if no connection was begun.
fn unbegun<M, S, K>(outcome: Outcome, input: S, output: K) -> Forwarded<M, S, K>
    ensures numbers { HasNumbers outcome result }
    ensures unbegun { IsUnbegun input output result }
{
    let status = outcome.status();
    Forwarded {
        status: status.code(),
        at: status.number(),
        net: None,
        input,
        output,
    }
}

// Tells the totals of a run in which all was sent.
fn tell<M, S, K: Sink>(ran: Ran<M, S>, output: K) -> Forwarded<M, S, K>
    ensures { IsTold K.facts ran output result }
{
    let Ran {
        outcome,
        net,
        input,
    } = ran;
    let (outcome, output) = match outcome {
        Outcome::Done { records, bytes } => match write_totals(output, records, bytes) {
            (output, true) => (outcome, output),
            (output, false) => (Outcome::WriteFault, output),
        },
        _ => (outcome, output),
    };
    let status = outcome.status();
    Forwarded {
        status: status.code(),
        at: status.number(),
        net: Some(net),
        input,
        output,
    }
}
