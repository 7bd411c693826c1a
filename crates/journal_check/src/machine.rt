//! The summary of the entries that were read, and what it says of the next one.

ghost use Rattle.std.specs.Prelude.{◌≡◌, ◌==◌, not, if◌then◌else◌, ◌&&◌, ◌||◌, ◌<◌, ◌+◌, ◌^◌, ◌++◌};
ghost use Rattle.std.specs.Prelude.{◌∷◌, [], true, false, None, Some, OnOk, ℕ, List};
ghost use Rattle.reactor_journal.specs.declared.entry.Entry.{Entry};
ghost use Rattle.reactor_summary.specs.Summary as S;
ghost use Rattle.reactor_summary.specs.Summary.{Summary};
ghost use Rattle.reactor_summary.specs.Rules as R;
ghost use Rattle.reactor_journal.specs.Follow as F;
ghost use Rattle.journal_check.specs.Small.{IsSmall};
ghost use Rattle.journal_check.specs.Index.{is_idle};
ghost use Rattle.journal_check.specs.Fronts as K;
ghost use Rattle.journal_check.specs.Sound as L;
ghost use Rattle.journal_check.specs.Sound.{IsSound, AreEarlier, after};
ghost use Rattle.reactor_summary.specs.Tells.{Each};
ghost use Rattle.std.specs.List.{list_any};
ghost use Rattle.journal_check.specs.Next.{IsNext, IsNew};

use crate::handles::Handles;
use crate::opens::Opens;
use crate::timers::Timers;
use crate::waiting::Waiting;
use crate::words::{class_of, is_number, winds_up};
use ev_types::{Answer, Handle, Kind, Mask, NoMemory, Upcall};
use reactor_journal::Entry;
use reactor_summary::{ArmedTimer, DueTimer, LiveHandle, OpenEvent, WaitingEvent, upcall_of};
use std::alloc::Global;
use std::marker::Model;

/// The most handles that a journal may open.
const MOST_HANDLES: u64 = 4_294_967_295;

/// What may come after the entries that were read.
#[derive(Clone, Copy)]
pub struct Next {
    /// Whether a timer may come due now.
    pub due: bool,
    /// Whether a report may come now.
    pub ready: bool,
    /// The event to be started next.
    pub pick: Option<u64>,
    /// Whether some handle waits for its close.
    pub waits: bool,
}

/// The summary of the entries that were read.
#[derive(Drop)]
pub struct Machine {
    entries: u64,
    moment: u64,
    opened: u64,
    closed: u64,
    scheduled: u64,
    refused: u64,
    ended: bool,
    handles: Handles,
    opens: Opens,
    waiting: Waiting,
    armed: Timers,
}

impl Model for Machine {
    ghost use Rattle.reactor_summary.specs.Summary.{Summary};

    ghost Value = { Summary };

    ghost view = { λ m. record {
      entries = m.entries;
      moment = m.moment;
      opened = m.opened;
      closed = m.closed;
      scheduled = m.scheduled;
      refused = m.refused;
      ended = m.ended;
      handles = m.handles;
      waiting = m.waiting;
      opens = m.opens;
      armed = m.armed;
    } };
}

impl Machine {
    /// That of no entries.
    pub fn new(alloc: Global) -> Machine
        ensures { result ≡ S.nothing }
    {
        Machine {
            entries: 0,
            moment: 0,
            opened: 0,
            closed: 0,
            scheduled: 0,
            refused: 0,
            ended: false,
            handles: Handles::new(alloc),
            opens: Opens::new(alloc),
            waiting: Waiting::new(alloc),
            armed: Timers::new(alloc),
        }
    }

    fn live(&self) -> u64
        ensures { result ≡ R.live self.now }
    {
        self.opened.saturating_sub(self.closed)
    }

    fn may_begin(&self, picked: bool, waits: bool) -> bool
        ensures { result ≡ (picked && (not (S.is_overdue self.now) && not waits)) }
    {
        picked && (!self.armed.is_reached(self.moment) && !waits)
    }

    fn may_cancel(&self, timer: u64) -> bool
        ensures { result ≡ (S.is_armed self.now timer || S.timeout_waits self.now timer) }
    {
        self.armed.is_armed(timer) || self.waiting.has_timeout(timer)
    }

    fn may_refuse(&self, live: u64, fault: bool, most: u64) -> bool
        ensures { result ≡ (live == R.live self.now && (R.live self.now == most
            || (self.now.opened == F.most_handles || (fault || self.now.ended)))) }
    {
        live == self.live()
            && (self.live() == most || (self.opened == MOST_HANDLES || (fault || self.ended)))
    }

    /// The case of each kind of entry but three.
    fn fits_alone<N>(&self, due: bool, ready: bool, entry: &Entry<N>, most: u64) -> bool
        ensures { L.is_alone entry.now ≡ true → result ≡ R.fits most due ready self.now entry.now }
    {
        match entry {
            Entry::Opened { handle, .. } => {
                handle.0 == self.opened && (self.live() < most && self.opened < MOST_HANDLES)
            }
            Entry::Scheduled {
                timer,
                handle,
                first,
                ..
            } => {
                *timer == self.scheduled && (self.handles.is_alive(*handle) && self.moment < *first)
            }
            Entry::Cancelled { timer } => self.may_cancel(*timer),
            Entry::Polled { .. } => false,
            Entry::Due { timer } => due && self.armed.is_first(self.moment, *timer),
            Entry::Ready { handle, kind } => {
                ready
                    && (!self.armed.is_reached(self.moment)
                        && self.handles.is_wanted(*handle, *kind))
            }
            Entry::Posted { handle, .. } => self.handles.is_alive(*handle),
            Entry::Stale { handle, .. } => !self.handles.is_alive(*handle),
            Entry::Started { .. } => false,
            Entry::Returned { event, .. } => self.opens.is_open(*event),
            Entry::Masked { handle, .. } => self.handles.is_alive(*handle),
            Entry::Suspended { handle } => self.handles.is_resumed(*handle),
            Entry::Resumed { handle } => self.handles.is_suspended(*handle),
            Entry::Refused { live, fault, .. } => self.may_refuse(*live, *fault, most),
            Entry::Removed { handle } => self.handles.is_alive(*handle),
            Entry::Closed { handle, .. } => self.waits(*handle),
            Entry::Ended => false,
        }
    }

    /// The case of each kind of entry.
    fn fits<N>(&self, next: &Next, entry: &Entry<N>, most: u64) -> bool
        ensures { next.now.pick ≡ K.pick_number self.now → next.now.waits ≡ S.some_wait self.now
            → result ≡ R.fits most next.now.due next.now.ready self.now entry.now }
    {
        match entry {
            Entry::Started { event } => self.may_begin(is_number(next.pick, *event), next.waits),
            Entry::Polled { now } => self.moment <= *now && !next.waits,
            Entry::Ended => !next.waits,
            _ => self.fits_alone(next.due, next.ready, entry, most),
        }
    }

    /// Whether the entry may follow.
    pub fn may_follow<N>(&self, next: &Next, entry: &Entry<N>, most: u64) -> bool
        ensures { next.now.pick ≡ K.pick_number self.now → next.now.waits ≡ S.some_wait self.now
            → result ≡ R.may_follow most next.now.due next.now.ready self.now entry.now }
    {
        (winds_up(entry) || !self.ended) && self.fits(next, entry, most)
    }

    /// Whether the handle waits for its close.
    pub fn waits(&self, handle: Handle) -> bool
        ensures { result ≡ S.waits_for_closed self.now handle.0 }
    {
        self.handles.is_over(handle) && !self.opens.is_busy(handle)
    }

    fn is_free(&self, handle: Handle) -> bool
        ensures { result ≡ S.is_free self.now handle.0 }
    {
        self.handles.is_resumed(handle) && !self.opens.is_busy(handle)
    }

    /// The class and number of the event of the handle that goes first, if one may be started.
    pub fn front_key(&self, handle: Handle) -> Option<(u128, u64)>
        ensures { IsSound self.now → result ≡ K.front_key self.now handle.0 }
    {
        if !self.is_free(handle) {
            return None;
        }
        match self.waiting.front_of(handle) {
            None => None,
            Some(w) => Some((class_of(w.upcall) as u128, w.event)),
        }
    }

    /// The handle that the entry is about.
    pub fn about<N>(&self, entry: &Entry<N>) -> Option<Handle>
        ensures { IsSound self.now → K.IsAbout self.now entry.now result }
    {
        match entry {
            Entry::Opened { handle, .. } => Some(*handle),
            Entry::Cancelled { timer } => self.waiting.timeout_handle(*timer),
            Entry::Due { timer } => self.armed.handle_of(*timer),
            Entry::Ready { handle, .. } => Some(*handle),
            Entry::Posted { handle, .. } => Some(*handle),
            Entry::Started { event } => self.waiting.handle_of(*event),
            Entry::Returned { event, .. } => self.opens.handle_of(*event),
            Entry::Masked { handle, .. } => Some(*handle),
            Entry::Suspended { handle } => Some(*handle),
            Entry::Resumed { handle } => Some(*handle),
            Entry::Removed { handle } => Some(*handle),
            Entry::Closed { handle, .. } => Some(*handle),
            _ => None,
        }
    }

    /// Adds an event, whose number is that of the entry.
    fn report(
        &mut self,
        handle: Handle,
        upcall: Upcall,
        due: Option<DueTimer>,
    ) -> Result<(), NoMemory>
        ensures { AreEarlier self.old → OnOk result (self.new
            ≡ record self.old {
              waiting = self.old.waiting
                  ++ record {
                    event = self.old.entries;
                    handle = handle;
                    upcall = upcall;
                    due = due;
                  }
                  ∷ [];
            }) }
    {
        let event = self.entries;
        self.waiting.push(WaitingEvent {
            event,
            handle,
            upcall,
            due,
        })
    }

    fn open(&mut self, handle: Handle, mask: Mask) -> Result<(), NoMemory>
        requires { self.old.opened + 1 < 2 ^ 64 }
        ensures { Each (λ h. h.handle.0 < handle.0) self.old.handles
            → OnOk result (self.new ≡ after {N = ℕ} self.old (Entry.Opened handle mask)) }
    {
        self.handles.push(LiveHandle {
            handle,
            mask,
            suspended: false,
            alive: true,
        })?;
        self.opened += 1;
        Ok(())
    }

    fn schedule(
        &mut self,
        timer: u64,
        handle: Handle,
        first: u64,
        every: u64,
    ) -> Result<(), NoMemory>
        requires { self.old.scheduled + 1 < 2 ^ 64 }
        ensures { S.is_armed self.old timer ≡ false → OnOk result
            (self.new ≡ after {N = ℕ} self.old (Entry.Scheduled timer handle first every)) }
    {
        self.armed.arm(ArmedTimer {
            deadline: first as u128,
            timer,
            handle,
            every,
        })?;
        self.scheduled += 1;
        Ok(())
    }

    fn come_due(&mut self, timer: u64) -> Result<(), NoMemory>
        requires { S.is_first_due self.old timer ≡ true }
        ensures { AreEarlier self.old → OnOk result (self.new
            ≡ after {N = ℕ} self.old (Entry.Due timer)) }
    {
        let first = self.armed.first_due(self.moment, timer);
        self.armed.disarm(timer);
        match first {
            None => Ok(()),
            Some(a) => {
                let due = DueTimer {
                    timer: a.timer,
                    deadline: a.deadline as u64,
                    every: a.every,
                };
                self.report(a.handle, Upcall::Timeout { timer: a.timer }, Some(due))
            }
        }
    }

    fn cancel(&mut self, timer: u64)
        ensures { self.new ≡ after {N = ℕ} self.old (Entry.Cancelled timer) }
    {
        self.armed.disarm(timer);
        self.waiting.cancel(timer);
    }

    fn begin(&mut self, w: WaitingEvent) -> Result<(), NoMemory>
        ensures { is_idle w.due self.old.armed ≡ true
            → list_any (λ o. w.event == o.event) self.old.opens ≡ false
            → S.is_busy self.old w.handle.0 ≡ false
            → OnOk result (self.new ≡ L.started self.old w) }
    {
        self.waiting.take(w.event);
        self.armed.arm_again(self.moment, w.handle, w.due)?;
        self.opens.push(OpenEvent {
            event: w.event,
            handle: w.handle,
            upcall: w.upcall,
            moment: self.moment,
        })?;
        Ok(())
    }

    fn start(&mut self, event: u64) -> Result<(), NoMemory>
        ensures { IsSound self.old → S.is_pick self.old event ≡ true
            → OnOk result (self.new ≡ after {N = ℕ} self.old (Entry.Started event)) }
    {
        match self.waiting.find(event) {
            None => Ok(()),
            Some(w) => self.begin(w),
        }
    }

    fn mask(&mut self, handle: Handle, mask: Mask)
        ensures { self.new ≡ after {N = ℕ} self.old (Entry.Masked handle mask) }
    {
        self.handles.set_mask(handle, mask);
        self.waiting.clear_masked(handle, mask);
    }

    fn end(&mut self, handle: Handle)
        ensures { self.new ≡ after {N = ℕ} self.old (Entry.Removed handle) }
    {
        self.handles.end_life(handle);
        self.waiting.clear_all(handle);
        self.armed.disarm_all(handle);
    }

    /// Adds an event that asks for the same upcall once more, if the handle is alive.
    fn once_more(&mut self, o: OpenEvent) -> Result<(), NoMemory>
        ensures { AreEarlier self.old → OnOk result (self.new
            ≡ record self.old { waiting = self.old.waiting ++ S.waiting_again self.old (Some o) }) }
    {
        if self.handles.is_alive(o.handle) {
            self.report(o.handle, o.upcall, None)
        } else {
            Ok(())
        }
    }

    fn settle_again(&mut self, event: u64) -> Result<(), NoMemory>
        ensures { AreEarlier self.old → OnOk result (self.new
            ≡ after {N = ℕ} self.old (Entry.Returned event Answer.Again 0)) }
    {
        let found = self.opens.find(event);
        self.opens.settle(event);
        match found {
            None => Ok(()),
            Some(o) => self.once_more(o),
        }
    }

    #[tactic(auto, using(crate::proofs::Ended::no_owner))]
    fn settle_close(&mut self, event: u64)
        ensures { self.new ≡ after {N = ℕ} self.old (Entry.Returned event Answer.Close 0) }
    {
        let found = self.opens.find(event);
        self.opens.settle(event);
        match found {
            None => {}
            Some(o) => self.end(o.handle),
        }
    }

    fn settle(&mut self, event: u64, answer: Answer) -> Result<(), NoMemory>
        ensures { AreEarlier self.old → OnOk result (self.new
            ≡ after {N = ℕ} self.old (Entry.Returned event answer 0)) }
    {
        match answer {
            Answer::Keep => {
                self.opens.settle(event);
                Ok(())
            }
            Answer::Again => self.settle_again(event),
            Answer::Close => {
                self.settle_close(event);
                Ok(())
            }
        }
    }

    /// What an entry that is no `Started` changes, but for the number of entries.
    fn apply<N>(&mut self, entry: &Entry<N>) -> Result<(), NoMemory>
        requires opened { self.old.opened + 1 < 2 ^ 64 }
        requires closed { self.old.closed + 1 < 2 ^ 64 }
        requires scheduled { self.old.scheduled + 1 < 2 ^ 64 }
        requires refused { self.old.refused + 1 < 2 ^ 64 }
        requires due { (timer : ℕ) → entry.now ≡ Entry.Due timer
            → S.is_first_due self.old timer ≡ true }
        requires other { (event : ℕ) → entry.now ≡ Entry.Started event → ⊥ }
        ensures { IsNew self.old entry.now → OnOk result (self.new ≡ after self.old entry.now) }
    {
        match entry {
            Entry::Opened { handle, mask } => self.open(*handle, *mask),
            Entry::Scheduled {
                timer,
                handle,
                first,
                every,
            } => self.schedule(*timer, *handle, *first, *every),
            Entry::Cancelled { timer } => {
                self.cancel(*timer);
                Ok(())
            }
            Entry::Polled { now } => {
                self.moment = *now;
                Ok(())
            }
            Entry::Due { timer } => self.come_due(*timer),
            Entry::Ready { handle, kind } => self.report(*handle, upcall_of(*kind), None),
            Entry::Posted { handle, kind, .. } => {
                self.report(*handle, Upcall::Notice { kind: *kind }, None)
            }
            Entry::Stale { .. } => Ok(()),
            Entry::Started { .. } => Ok(()),
            Entry::Returned { event, answer, .. } => self.settle(*event, *answer),
            Entry::Masked { handle, mask } => {
                self.mask(*handle, *mask);
                Ok(())
            }
            Entry::Suspended { handle } => {
                self.handles.set_suspended(*handle, true);
                Ok(())
            }
            Entry::Resumed { handle } => {
                self.handles.set_suspended(*handle, false);
                Ok(())
            }
            Entry::Refused { .. } => {
                self.refused += 1;
                Ok(())
            }
            Entry::Removed { handle } => {
                self.end(*handle);
                Ok(())
            }
            Entry::Closed { handle, .. } => {
                self.handles.close(*handle);
                self.closed += 1;
                Ok(())
            }
            Entry::Ended => {
                self.ended = true;
                Ok(())
            }
        }
    }

    /// What an entry changes, but for the number of entries.
    fn change<N>(&mut self, entry: &Entry<N>) -> Result<(), NoMemory>
        requires opened { self.old.opened + 1 < 2 ^ 64 }
        requires closed { self.old.closed + 1 < 2 ^ 64 }
        requires scheduled { self.old.scheduled + 1 < 2 ^ 64 }
        requires refused { self.old.refused + 1 < 2 ^ 64 }
        requires due { (timer : ℕ) → entry.now ≡ Entry.Due timer
            → S.is_first_due self.old timer ≡ true }
        ensures { IsSound self.old → IsNext self.old entry.now
            → OnOk result (self.new ≡ after self.old entry.now) }
    {
        match entry {
            Entry::Started { event } => self.start(*event),
            _ => self.apply(entry),
        }
    }

    fn count(&mut self, entries: u64)
        ensures { self.new ≡ record self.old { entries = entries } }
    {
        self.entries = entries;
    }

    /// Reads one more entry, which may follow.
    pub fn step<N>(&mut self, entry: &Entry<N>) -> Result<(), NoMemory>
        requires small { IsSmall self.old }
        requires due { (timer : ℕ) → entry.now ≡ Entry.Due timer
            → S.is_first_due self.old timer ≡ true }
        ensures { IsSound self.old → IsNext self.old entry.now
            → OnOk result (self.new ≡ S.step self.old entry.now) }
    {
        let entries = self.entries + 1;
        self.change(entry)?;
        self.count(entries);
        Ok(())
    }
}
