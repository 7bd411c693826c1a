//! The demultiplexer of sockets.
ghost use Rattle.std.specs.Prelude.{◌≡◌, ◌≤◌, ◌<◌, ◌+◌, ◌∷◌, ◌^◌, true, None};
ghost use Rattle.std.specs.Prelude.{Contains, IfOk, OnErr, OnOk, max, min};
ghost use Rattle.demux_mio.specs.Waits.{limit_of};

use crate::MioEnd;
use crate::closer::{Closer, MOST_RETIRED};
use crate::control::Control;
use crate::readiness::Readiness;
use crate::shared::Sharing;
use crate::socket::Place;
use crate::watching::Watching;
use ev_base::{Handle, MOST_REPORTS, Mask, Net, NetFailed, NoMemory, PeerEnd, Report, Waited};
use mio::{Events, Poll, Token};
use std::alloc::Global;
use std::io;
use std::sync::Arc;
use std::time::{Clock, Duration, Instant};

/// How many events a wait takes from the system at most: each gives two reports at most.
const MOST_EVENTS: usize = 128;

/// The last moment.
const LAST_MOMENT: u64 = 1 << 62;

/// How often a wait looks at the system before it sleeps, if sleeps were cut short lately.
const LOOKS: u32 = 16;

/// After a sleep that was cut short, so many waits look before they sleep.
const LOOKING_WAITS: u32 = 16;

/// After how many milliseconds an accept that failed is tried again.
const RETRY: u64 = 100;

/// The token of the waker.
pub(crate) const WAKER: Token = Token(usize::MAX);

/// A demultiplexer of sockets. Its moments are milliseconds since the host listened. Only `reserve`
/// and `attach` take memory.
#[derive(Drop)]
pub struct MioNet<R> {
    rt: R,
    alloc: Global,
    poll: Poll,
    events: Events,
    shared: Sharing,
    closer: Option<Closer>,
    control: Option<Control>,
    start: Instant,
    last: u64,
    // When the listeners are tried again.
    retry: Option<u64>,
    // How many waits more look before they sleep.
    looking: u32,
    watching: Watching,
    spare: usize,
    reports: Vec<Report>,
    failed_waits: u64,
    failed_attaches: u64,
    ghost bounded: { last ≤ 2 ^ 62 },
}

/// The moment, by how many milliseconds passed since the start and by the last moment: what passed,
/// but not below the last moment, and not above the greatest that there is.
fn moment_after(passed: u128, last: u64) -> u64
    ensures { result ≡ max last (min passed (2 ^ 62)) }
{
    let present = passed.min(LAST_MOMENT as u128) as u64;
    present.max(last)
}

/// The limit of a wait in milliseconds, by whether a report is owed, in how many milliseconds the
/// listeners are tried again, and the limit that the caller names.
fn limit_of(owing: bool, until_retry: Option<u64>, most_ms: Option<u64>) -> Option<u64>
    ensures { result ≡ limit_of owing until_retry most_ms }
{
    match (until_retry, most_ms) {
        _ if owing => Some(0),
        (Some(first), Some(most)) => Some(first.min(most)),
        (Some(limit), None) | (None, Some(limit)) => Some(limit),
        (None, None) => None,
    }
}

impl<R: Clock + Copy> MioNet<R> {
    ghost use Rattle.ev_base.specs.Net.{IsNew, Attaches};
    ghost use Rattle.demux_mio.specs.Asked.{attached_in};
    ghost use Rattle.demux_mio.specs.Nets.{mio_net_facts, asked_of, control_of};
    ghost use Rattle.demux_mio.specs.Controls.{has_ended};
    ghost use Rattle.demux_mio.specs.Ends.{mio_end_facts};

    /// A net that has made no call, over this poll.
    pub(crate) fn new(
        rt: R,
        alloc: Global,
        poll: Poll,
        shared: Sharing,
        closer: Option<Closer>,
        control: Option<Control>,
        start: Instant,
    ) -> Result<MioNet<R>, NoMemory>
        ensures new { IfOk result (λ net. IsNew (mio_net_facts net)) }
        ensures control { IfOk result (λ net. control_of net ≡ control) }
    {
        Ok(MioNet {
            rt,
            alloc,
            poll,
            events: Events::with_capacity(alloc, MOST_EVENTS)?,
            shared,
            closer,
            control,
            start,
            last: 0,
            retry: None,
            looking: 0,
            watching: Watching::new(alloc),
            spare: 0,
            reports: Vec::with_capacity(alloc, MOST_REPORTS)?,
            failed_waits: 0,
            failed_attaches: 0,
        })
    }

    /// The present moment: that of the clock, but not below the last one.
    fn moment(&self) -> u64
        ensures later { self.now.last ≤ result }
        ensures bounded { result ≤ 2 ^ 62 }
    {
        match self.start.elapsed(&self.rt) {
            Ok(elapsed) => moment_after(elapsed.as_millis(), self.last),
            Err(_) => self.last,
        }
    }

    /// How long to wait at most, whether the caller names a limit or none.
    fn limit(&self, most_ms: Option<u64>) -> Option<Duration> {
        let until_retry = self.retry.map(|retry| retry.saturating_sub(self.last));
        let limit_ms = limit_of(self.watching.is_owing(), until_retry, most_ms);
        limit_ms.map(Duration::from_millis)
    }

    /// Waits at the system, but not if somebody woke the net. Before it sleeps it closes what
    /// was retired, and looks some times if a sleep was cut short by a wake lately, which costs
    /// both threads more than the looks.
    fn wait_for_events(&mut self, limit: Option<Duration>) -> io::Result<()>
        ensures facts { mio_net_facts self.new ≡ mio_net_facts self.old }
        ensures asked { asked_of self.new ≡ asked_of self.old }
        ensures control { control_of self.new ≡ control_of self.old }
    {
        if self.close_retired(limit)? {
            self.shared.end_wait();
            return Ok(());
        }
        if limit != Some(Duration::ZERO) && self.looking > 0 {
            if self.look()? {
                self.shared.end_wait();
                return Ok(());
            }
        }
        self.sleep(limit)
    }

    /// Closes what was retired: at once if the closer sleeps, since to wake it takes as long,
    /// and else, beside it, while there are no events and the wait is to last. Tells whether there
    /// are events.
    fn close_retired(&mut self, limit: Option<Duration>) -> io::Result<bool>
        ensures facts { mio_net_facts self.new ≡ mio_net_facts self.old }
        ensures asked { asked_of self.new ≡ asked_of self.old }
        ensures control { control_of self.new ≡ control_of self.old }
    {
        for _ in 0..MOST_RETIRED {
            let Some(closer) = &self.closer else {
                return Ok(false);
            };
            if !closer.is_behind() {
                return Ok(false);
            }
            if !closer.sleeps() {
                if limit == Some(Duration::ZERO) || self.shared.is_woken() {
                    return Ok(false);
                }
                self.poll.poll(&mut self.events, Some(Duration::ZERO))?;
                if !self.events.is_empty() {
                    return Ok(true);
                }
            }
            closer.close_one();
        }
        Ok(false)
    }

    /// Looks for events without sleeping, and tells whether there are any, or somebody woke the
    /// net.
    fn look(&mut self) -> io::Result<bool>
        ensures facts { mio_net_facts self.new ≡ mio_net_facts self.old }
        ensures asked { asked_of self.new ≡ asked_of self.old }
        ensures control { control_of self.new ≡ control_of self.old }
    {
        for _ in 0..LOOKS {
            self.poll.poll(&mut self.events, Some(Duration::ZERO))?;
            if !self.events.is_empty() || self.shared.is_woken_soon() {
                return Ok(true);
            }
        }
        Ok(false)
    }

    /// Sleeps at the system, but not if somebody woke the net.
    fn sleep(&mut self, limit: Option<Duration>) -> io::Result<()>
        ensures facts { mio_net_facts self.new ≡ mio_net_facts self.old }
        ensures asked { asked_of self.new ≡ asked_of self.old }
        ensures control { control_of self.new ≡ control_of self.old }
    {
        let lasts = self.shared.begin_wait();
        let limit = if lasts { limit } else { Some(Duration::ZERO) };
        let outcome = self.poll.poll(&mut self.events, limit);
        let woken = self.shared.end_wait();
        self.looking = if lasts && woken {
            LOOKING_WAITS
        } else {
            self.looking.saturating_sub(1)
        };
        outcome
    }

    /// Notes when the listeners are tried again, if an accept failed.
    fn note_failed_accepts(&mut self)
        ensures facts { mio_net_facts self.new ≡ mio_net_facts self.old }
        ensures asked { asked_of self.new ≡ asked_of self.old }
        ensures control { control_of self.new ≡ control_of self.old }
    {
        if self.shared.take_failed_accept() {
            self.retry = Some(self.last.saturating_add(RETRY));
        }
    }

    /// Has the listeners tried again once it is time.
    fn retry_listeners(&mut self)
        ensures facts { mio_net_facts self.new ≡ mio_net_facts self.old }
        ensures asked { asked_of self.new ≡ asked_of self.old }
        ensures control { control_of self.new ≡ control_of self.old }
    {
        match self.retry {
            Some(retry) if retry <= self.last => {
                self.retry = None;
                self.watching.owe_listeners();
            }
            _ => {}
        }
    }

    /// Whether the end of the control was found, if there is one.
    fn has_ended(&self) -> bool
        ensures { result ≡ has_ended (control_of self.now) }
    {
        match &self.control {
            Some(control) => control.has_ended(),
            None => false,
        }
    }

    /// Has the control see what came.
    fn take_control(&mut self)
        ensures facts { mio_net_facts self.new ≡ mio_net_facts self.old }
        ensures asked { asked_of self.new ≡ asked_of self.old }
        ensures stays { has_ended (control_of self.old) ≡ true
            → has_ended (control_of self.new) ≡ true }
        ensures none { control_of self.old ≡ None → control_of self.new ≡ None }
    {
        if let Some(control) = &mut self.control {
            control.take(self.poll.registry(), &self.events);
        }
    }

    /// Watches an end.
    fn watch(&mut self, end: &mut MioEnd, handle: Handle, mask: Mask) -> Result<(), NetFailed>
        ensures end { mio_end_facts end.new ≡ mio_end_facts end.old }
        ensures ok { OnOk result (asked_of self.new ≡ Attaches handle.0 mask None
            ∷ asked_of self.old) }
        ensures err { OnErr result (asked_of self.new ≡ asked_of self.old) }
        ensures rest { mio_net_facts self.new ≡ record (mio_net_facts self.old) {
          attached = attached_in (asked_of self.new);
        } }
    {
        let Ok(signs) = Arc::new(self.alloc, Readiness::nothing()) else {
            return Err(NetFailed);
        };
        let Ok(theirs) = Arc::try_clone(&signs) else {
            return Err(NetFailed);
        };
        let Ok(shared) = Arc::try_clone(&self.shared) else {
            return Err(NetFailed);
        };
        let token = Token(handle.0 as usize);
        let place = Place {
            shared,
            token,
            signs: theirs,
        };
        if end.watch(place).is_err() {
            return Err(NetFailed);
        }
        let listens = end.is_listener();
        if self.watching.add(handle, mask, listens, signs).is_err() {
            end.unwatch();
            return Err(NetFailed);
        }
        Ok(())
    }
}

impl<R: Clock + Copy> Net for MioNet<R> {
    ghost use Rattle.ev_base.specs.Terms.{Terms, KeepsOn, KeepsOnWith};
    ghost use Rattle.ev_base.specs.Net.{NetWaits, NetAttaches, SetsMaskOf, RetiresEnd, Attaches};
    ghost use Rattle.ev_base.specs.Net.{SetsMask, Retires};
    ghost use Rattle.demux_mio.specs.Nets.{mio_net_facts, mio_net_keeps, asked_of, control_of};
    ghost use Rattle.demux_mio.specs.Nets.{GivesWanted};
    ghost use Rattle.demux_mio.specs.Controls.{EndsWith};
    ghost use Rattle.demux_mio.specs.Ends.{mio_end_facts, mio_end_keeps};

    type End = MioEnd;

    ghost facts = { mio_net_facts };

    ghost keeps = { mio_net_keeps };

    fn wait(&mut self, most_ms: Option<u64>) -> Waited
        ensures waits { NetWaits (mio_net_facts self.old) most_ms result (mio_net_facts self.new) }
        ensures kept { KeepsOn mio_net_keeps self.old self.new }
        ensures asked { asked_of self.new ≡ asked_of self.old }
        ensures wanted { GivesWanted result (asked_of self.old) (mio_net_facts self.new).reports }
        ensures control { EndsWith (control_of self.old) result (control_of self.new) }
    {
        if !self.has_ended() {
            self.note_failed_accepts();
            let limit = self.limit(most_ms);
            if self.wait_for_events(limit).is_err() {
                self.failed_waits = self.failed_waits.saturating_add(1);
                return Waited::Failed;
            }
            self.take_control();
        }
        let now = self.moment();
        self.last = now;
        self.reports.clear();
        if self.has_ended() {
            return Waited::Over { now };
        }
        self.retry_listeners();
        self.watching.collect(&self.events, &mut self.reports);
        match self.reports.len() {
            0 => Waited::Quiet { now },
            count => Waited::Reports { now, count },
        }
    }

    fn report(&self, at: usize) -> Report {
        self.reports[at]
    }

    fn reserve(&mut self, n: usize) -> Result<(), NoMemory> {
        if n > self.spare {
            self.watching.reserve(n)?;
            self.spare = n;
        }
        Ok(())
    }

    fn attach(&mut self, end: &mut MioEnd, handle: Handle, mask: Mask) -> Result<(), NetFailed>
        requires place { 1 ≤ (mio_net_facts self.old).spare }
        requires absent { Contains (mio_net_facts self.old).attached handle.0 → ⊥ }
        ensures attaches { NetAttaches (mio_net_facts self.old) handle.0 mask
            (mio_end_facts end.old).serial result (mio_net_facts self.new) }
        ensures end { mio_end_facts end.new ≡ mio_end_facts end.old }
        ensures kept { KeepsOnWith mio_net_keeps mio_end_keeps end.old self.old self.new }
        ensures end_kept { (t : Terms) → mio_net_keeps t self.old → mio_end_keeps t end.old
            → mio_end_keeps t end.new }
        ensures asked { OnOk result (asked_of self.new ≡ Attaches handle.0 mask None
            ∷ asked_of self.old) }
        ensures not_asked { OnErr result (asked_of self.new ≡ asked_of self.old) }
    {
        match self.watch(end, handle, mask) {
            Ok(()) => {
                self.spare -= 1;
                Ok(())
            }
            Err(refused) => {
                self.failed_attaches = self.failed_attaches.saturating_add(1);
                Err(refused)
            }
        }
    }

    fn set_mask(&mut self, handle: Handle, mask: Mask)
        requires { Contains (mio_net_facts self.old).attached handle.0 }
        ensures sets { SetsMaskOf (mio_net_facts self.old) handle.0 mask (mio_net_facts self.new) }
        ensures kept { KeepsOn mio_net_keeps self.old self.new }
        ensures asked { asked_of self.new ≡ SetsMask handle.0 mask ∷ asked_of self.old }
    {
        self.watching.set_mask(handle, mask);
    }

    fn retire(&mut self, handle: Handle, end: MioEnd)
        requires { Contains (mio_net_facts self.old).attached handle.0 }
        ensures retires { RetiresEnd (mio_net_facts self.old) handle.0 end
            (mio_net_facts self.new) }
        ensures kept { KeepsOnWith mio_net_keeps mio_end_keeps end self.old self.new }
        ensures asked { asked_of self.new ≡ Retires handle.0 ∷ asked_of self.old }
    {
        self.watching.remove(handle);
        if let (Some(closer), Some(stream)) = (&self.closer, end.into_stream()) {
            closer.hand_over(stream);
        }
    }

    fn turn_away(&mut self, end: MioEnd) {
        drop(end);
        self.spare -= 1;
    }

    ghost sound = { λ net steady. cc };

    ghost keeps_groups = { λ t net keeps. tt };
}
