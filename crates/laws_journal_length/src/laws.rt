//! The law of the length of journals. The function has an empty body: what it says is its contract,
//! over the definitions alone.

ghost use Rattle.laws_journal_length.specs.Laws.{IsShort};

use laws_one_worker::{Desk, EventHandler, Means, Net, ServerNote, TimerQueue, Volumes, Watch};

/// A worker that is alone with its reactor, and runs it over a script without an idle time, leaves
/// a journal of at most 16 entries for each step, one for each 1,024 bytes, one for each quiet
/// group, and 200.
pub fn journal_is_short<
    H: EventHandler<Note = ServerNote>,
    M: Net<End = H::End>,
    Q: TimerQueue,
    W: Watch<ServerNote>,
    V: Volumes<ServerNote>,
>()
    ensures { IsShort ⟦<Desk<H, M, Q, W, V> as Means>⟧.m }
{}
