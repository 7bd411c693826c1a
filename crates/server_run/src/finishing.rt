//! The end of a run.
ghost use Rattle.std.specs.Prelude.{◌≡◌, ℕ, List};
ghost use Rattle.ev_base.specs.Terms.{Terms};
ghost use Rattle.log_handler.specs.declared.note.ServerNote.{ServerNote};
ghost use Rattle.log_handler.specs.reactor_journal.specs.declared.entry.Entry.{Entry};
ghost use Rattle.tp_reactor.specs.reactor_core.specs.Stands.{Stands};
ghost use Rattle.server_run.specs.Finishing.{Finishes, HasNoneOpen, KeepsCounts, NoneOpen, named};

use crate::{Ending, Served};
use acceptor::ServerHandler;
use ev_base::{Net, PeerEnd};
use log_handler::ServerNote;
use tp_reactor::{Core, Means, Parts, TimerQueue, Volumes, Watch};

/// The reactor of a run of the server.
pub(crate) type ServerCore<E, M, Q, W, V> = Core<ServerHandler<E>, M, Q, W, V>;

/// Stops a reactor with no upcall on its way, which closes its handlers, and takes it apart.
pub(crate) fn finish<
    E: PeerEnd,
    M: Net<End = E>,
    Q: TimerQueue,
    W: Watch<ServerNote>,
    V: Volumes<ServerNote>,
>(core: ServerCore<E, M, Q, W, V>, ending: Ending) -> Served<M, Q, W, V>
    requires { HasNoneOpen ⟦<ServerCore<E, M, Q, W, V> as Means>⟧.m core }
    ensures stands { (t : Terms) (first : ℕ) (list : List (Entry ServerNote))
        → Stands ⟦<ServerCore<E, M, Q, W, V> as Means>⟧.m t core first list → NoneOpen list
        → Finishes ⟦<ServerCore<E, M, Q, W, V> as Means>⟧.m Q.timers t first list core
        result.parts }
    ensures counts { KeepsCounts ⟦<ServerCore<E, M, Q, W, V> as Means>⟧.m core result.parts }
    ensures named { result.ending ≡ named ending (W.is_broken result.parts.watch) }
{
    let mut core = core;
    core.stop();
    leave(core.into_parts(), ending)
}

/// What is left of a run that ended so, unless its watch failed.
pub(crate) fn leave<M, Q, W: Watch<ServerNote>, V>(
    parts: Parts<ServerNote, M, Q, W, V>,
    ending: Ending,
) -> Served<M, Q, W, V>
    ensures parts { result.parts ≡ parts }
    ensures named { result.ending ≡ named ending (W.is_broken result.parts.watch) }
{
    let ending = if parts.watch.broken() {
        Ending::Broken
    } else {
        ending
    };
    Served { ending, parts }
}
