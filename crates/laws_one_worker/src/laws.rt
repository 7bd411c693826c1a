//! Laws of runs of one worker over a script. Each function has an empty body: what it says is its
//! contract, over the definitions alone.

ghost use Rattle.laws_one_worker.specs.Laws.{RunIsSerial};

use laws_script_calls::ServerNote;
use tp_reactor::{Desk, EventHandler, Means, Net, TimerQueue, Volumes, Watch};

/// A worker that is alone with its reactor, and runs it over a script until nothing can be reported
/// any more, leaves the serial journal of the script.
pub fn run_is_serial<
    H: EventHandler<Note = ServerNote>,
    M: Net<End = H::End>,
    Q: TimerQueue,
    W: Watch<ServerNote>,
    V: Volumes<ServerNote>,
>()
    ensures { RunIsSerial ⟦<Desk<H, M, Q, W, V> as Means>⟧.m }
{}
