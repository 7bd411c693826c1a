//! The run of the server over a host.
ghost use Rattle.std.specs.Prelude.{◌≡◌, ◌<◌, ◌++◌, ◌∷◌, [], None, Some};
ghost use Rattle.ev_base.specs.Counts.{Rose};
ghost use Rattle.ev_base.specs.Host.{GivesListener};
ghost use Rattle.ev_base.specs.Terms.{Terms};
ghost use Rattle.cmd_line.specs.Ranges.{AreInRange};
ghost use Rattle.cmd_serve.specs.Leaving.{IsUnserved, LeavesHost, ListensSo};
ghost use Rattle.cmd_serve.specs.Starting.{asked_by, terms_of};

use crate::ending::{leave, told_end, unserved};
use crate::{HostEnd, HostServed};
use chosen_timers::ChosenTimers;
use cmd_line::Options;
use ev_base::{Host, ListenRefused, Net, PeerEnd, Sink, Wake};
use server_run::{Asked, Core, Ground, LineSink, Means, ServerHandler, ServerNote, Volumes, serve};
use std::alloc::Global;
use std::marker::Brand;
use std::sync::Wait;
use std::thread::Threads;
use std::time::Clock;
use write_behind::{ByteQueue, Start, WriteBehind};

/// The reactor of a run over a host: over the nets of its ends, with a queue of timers that was
/// chosen, and with a sink of lines as its watch.
pub type HostCore<E, M, K, V> = Core<ServerHandler<E>, M, ChosenTimers, LineSink<K>, V>;

/// For how many milliseconds a wait goes on at most.
const MOST_WAIT: u64 = 1_000;

/// Runs the logging server over a host (C++NPv2 chapter 4): the host listens on the port, and a
/// pool of workers serves the connections that come. The output has the lines of the journal's
/// notes, written as its entries are appended, and full volumes of the journal are handed over.
/// With several workers a thread writes the lines when they come fast. A wait goes on for one
/// second at most. Without `until` in the options it goes on until the net has nothing to report
/// any more.
///
/// `ListenFault` comes exactly if the host could not listen. Then nothing was done.
pub fn serve_host<
    R: Clock + Threads + Wait + Copy + Send + Sync + 'static,
    H: Host,
    K: Sink + Send + Drop + 'static,
    V: Volumes<ServerNote> + Send,
>(
    rt: &R,
    alloc: Global,
    options: Options,
    port: u16,
    host: &mut H,
    output: K,
    volumes: V,
) -> HostServed<H::Net, K, V>
where
    H::End: Drop + Send,
    H::Net: Send,
    H::Waker: Drop + Sync,
    requires { AreInRange options }
    ensures leaves { LeavesHost ⟦<HostCore<H::End, H::Net, K, V> as Means>⟧.m K.facts
        (terms_of options (K.facts output) (V.facts volumes))
        (asked_by options (V.facts volumes).size) (K.facts output) result }
    ensures listens { ListensSo result.end result.net (H.faults host.old) (H.faults host.new) }
    ensures asked { H.ports host.new ≡ H.ports host.old ++ port ∷ [] }
    ensures refused { result.net ≡ None → IsUnserved output volumes result }
    ensures volumes { result.end ≡ HostEnd.VolumeFault → Rose (V.facts volumes).faults
        (V.facts result.volumes).faults }
{
    match host.listen(alloc, port) {
        Ok(given) => serve_given(rt, alloc, options, given, output, volumes),
        Err(ListenRefused::Failed) => {
            unserved(alloc, HostEnd::ListenFault, None, output, volumes)
        }
        Err(ListenRefused::NoMemory) => {
            unserved(alloc, HostEnd::NoMemory, None, output, volumes)
        }
    }
}

/// Runs the server over what a host gave. With several workers, and if there is memory for its
/// queue, the output writes behind: while one worker writes a line the others need not wait.
fn serve_given<
    R: Clock + Threads + Wait + Copy + Send + Sync + 'static,
    E: PeerEnd + Drop + Send,
    M: Net<End = E> + Send,
    W: Wake + Drop + Sync,
    K: Sink + Send + Drop + 'static,
    V: Volumes<ServerNote> + Send,
>(
    rt: &R,
    alloc: Global,
    options: Options,
    given: (M, E, W),
    output: K,
    volumes: V,
) -> HostServed<M, K, V>
    ghost terms: { Terms }
    requires ranges { AreInRange options }
    requires terms { terms ≡ terms_of options (K.facts output) (V.facts volumes) }
    requires listener { GivesListener M.facts E.tells (given.0, given.1) }
    requires net_keeps { M.keeps terms given.0 }
    requires listener_keeps { E.keeps terms given.1 }
    ensures leaves { LeavesHost ⟦<HostCore<E, M, K, V> as Means>⟧.m K.facts
        (terms_of options (K.facts output) (V.facts volumes))
        (asked_by options (V.facts volumes).size) (K.facts output) result }
    ensures given { result.net ≡ None → ⊥ }
    ensures listened { result.end ≡ HostEnd.ListenFault → ⊥ }
    ensures volumes { result.end ≡ HostEnd.VolumeFault → Rose (V.facts volumes).faults
        (V.facts result.volumes).faults }
{
    if options.workers > 1
        && let Ok(queue) = ByteQueue::new(alloc)
    {
        return serve_behind::<R, E, M, W, K, V, Brand>(
            rt, alloc, options, given, queue, output, volumes,
        );
    }
    serve_net(rt, alloc, options, given, output, volumes)
}

/// Runs it with an output that writes behind. A write that failed is told whatever else ended the
/// run.
fn serve_behind<
    R: Clock + Threads + Wait + Copy + Send + Sync + 'static,
    E: PeerEnd + Drop + Send,
    M: Net<End = E> + Send,
    W: Wake + Drop + Sync,
    K: Sink + Send + Drop + 'static,
    V: Volumes<ServerNote> + Send,
    S: Start + Send + 'static,
>(
    rt: &R,
    alloc: Global,
    options: Options,
    given: (M, E, W),
    queue: ByteQueue,
    output: K,
    volumes: V,
) -> HostServed<M, K, V>
    ghost terms: { Terms }
    requires ranges { AreInRange options }
    requires terms { terms ≡ terms_of options (K.facts output) (V.facts volumes) }
    requires listener { GivesListener M.facts E.tells (given.0, given.1) }
    requires net_keeps { M.keeps terms given.0 }
    requires listener_keeps { E.keeps terms given.1 }
    requires several { 1 < options.workers }
    requires facts { K.facts output ≡ S.facts }
    requires consumer { S.consumer ≡ Some queue.consumer }
    ensures leaves { LeavesHost ⟦<HostCore<E, M, K, V> as Means>⟧.m K.facts
        (terms_of options (K.facts output) (V.facts volumes))
        (asked_by options (V.facts volumes).size) (K.facts output) result }
    ensures given { result.net ≡ None → ⊥ }
    ensures listened { result.end ≡ HostEnd.ListenFault → ⊥ }
    ensures volumes { result.end ≡ HostEnd.VolumeFault → Rose (V.facts volumes).faults
        (V.facts result.volumes).faults }
{
    let (behind, thread) = WriteBehind::<R, K, S>::start(*rt, alloc, queue, output);
    let served = serve_net(rt, alloc, options, given, behind, volumes);
    let HostServed {
        end,
        journal,
        first,
        net,
        output,
        volumes,
    } = served;
    let (output, whole) = output.finish(thread);
    HostServed {
        end: told_end(whole, end),
        journal,
        first,
        net,
        output,
        volumes,
    }
}

/// Runs the server over what a host gave: a new net, its listener, and what wakes the net. If
/// there is no memory for the timers the listener and the waker are dropped.
fn serve_net<
    R: Threads + Wait + Sync,
    E: PeerEnd + Drop + Send,
    M: Net<End = E> + Send,
    W: Wake + Drop + Sync,
    K: Sink + Send,
    V: Volumes<ServerNote> + Send,
>(
    rt: &R,
    alloc: Global,
    options: Options,
    given: (M, E, W),
    output: K,
    volumes: V,
) -> HostServed<M, K, V>
    ghost terms: { Terms }
    requires ranges { AreInRange options }
    requires terms { terms ≡ terms_of options (K.facts output) (V.facts volumes) }
    requires listener { GivesListener M.facts E.tells (given.0, given.1) }
    requires net_keeps { M.keeps terms given.0 }
    requires listener_keeps { E.keeps terms given.1 }
    ensures leaves { LeavesHost ⟦<HostCore<E, M, K, V> as Means>⟧.m K.facts
        (terms_of options (K.facts output) (V.facts volumes))
        (asked_by options (V.facts volumes).size) (K.facts output) result }
    ensures given { result.net ≡ None → ⊥ }
    ensures listened { result.end ≡ HostEnd.ListenFault → ⊥ }
    ensures volumes { result.end ≡ HostEnd.VolumeFault → Rose (V.facts volumes).faults
        (V.facts result.volumes).faults }
{
    let (net, listener, waker) = given;
    let Ok(timers) = ChosenTimers::new(alloc, options.timers) else {
        return unserved(alloc, HostEnd::NoMemory, Some(net), output, volumes);
    };
    let asked = Asked {
        workers: options.workers as usize,
        connections: options.most,
        idle: options.idle,
        until: options.until,
        limit: Some(MOST_WAIT),
        volume: volumes.volume_size(),
    };
    let ground = Ground {
        net,
        listener,
        timers,
        watch: LineSink::new(output),
        volumes,
    };
    leave(serve(rt, alloc, asked, ground, waker))
}
