//! What each entry of a journal changes of the state.

ghost use Rattle.std.specs.Prelude.{◌≡◌, ◌≤◌, ◌<◌, ◌+◌, ◌-◌, ◌==◌, ◌^◌, ℕ, Bool, true, Some};
ghost use Rattle.std.specs.Prelude.{if◌then◌else◌, ◌++◌, length, IfSome, IfNone};
ghost use Rattle.std.specs.List.{list_any};
ghost use Rattle.reactor_summary.specs.reactor_journal.specs.declared.entry.Entry.{Entry};
ghost use Rattle.reactor_summary.specs.Summary as S;
ghost use Rattle.reactor_summary.specs.Summary.{Summary};
ghost use Rattle.reactor_state.specs.Rises.{RisesIn};
ghost use Rattle.reactor_state.specs.Sound.{handle_number};
ghost use Rattle.reactor_state.specs.Tables.{queues, capacities, HasRoom};
ghost use Rattle.reactor_state.specs.State.{after, without_handle, answered, no_places};
ghost use Rattle.reactor_state.specs.State.{but_an_event, CanStep, TakesTo, Tells, HasTables};
ghost use Rattle.reactor_state.specs.State.{HasPlaces, KeepsPlaces, UsesPlaces, HasNumber};
ghost use Rattle.reactor_state.specs.State.{IsPlaced};

use crate::handles::{close, end_life, is_alive};
use crate::opens::{find_open, settle};
use crate::places::Pick;
use crate::state::ReactorState;
use ev_types::{Answer, Handle, Kind, Mask, Upcall};
use reactor_summary::{DueTimer, LiveHandle, OpenEvent, WaitingEvent, upcall_of};
use timer_queue::{Timer, TimerQueue};

/// How many are alive when one of them, or none, is no more.
fn fewer(alive: usize, was_alive: bool) -> usize
    ensures { result ≡ alive - (if was_alive then 1 else 0) }
{
    if was_alive {
        alive.saturating_sub(1)
    } else {
        alive
    }
}

impl<Q: TimerQueue> ReactorState<Q> {
    /// A handler is registered with this mask: `Opened`. It answers the handle, and uses a place
    /// for one.
    pub fn open(&mut self, mask: Mask) -> Handle
        requires can { CanStep Q.timers self.old (λ s. HasNumber s × (s.opened < 4294967295)) }
        requires room { HasPlaces Q.spare (record no_places { handles = 1 }) self.old }
        ensures number { Tells Q.timers self.old (λ s. result.0 ≡ s.opened) }
        ensures steps { TakesTo Q.timers self.old (λ s. HasNumber s × (s.opened < 4294967295))
            (λ s. after s (Entry.Opened result mask)) self.new }
        ensures places { UsesPlaces Q.spare self.old (λ p. record p { handles = p.handles - 1 })
            self.new }
    {
        let handle = Handle(self.opened);
        self.handles.push_reserved(LiveHandle {
            handle,
            mask,
            suspended: false,
            alive: true,
        });
        self.opened += 1;
        self.alive += 1;
        self.entries += 1;
        handle
    }

    /// The demultiplexer answered a wait at this moment, in milliseconds: `Polled`.
    pub fn poll(&mut self, now: u64)
        requires { CanStep Q.timers self.old (λ s. HasNumber s × (s.moment ≤ now)
            × (now ≤ 2 ^ 62)) }
        ensures steps { TakesTo Q.timers self.old (λ s. HasNumber s × (s.moment ≤ now)
            × (now ≤ 2 ^ 62)) (λ s. after s (Entry.Polled now)) self.new }
        ensures places { KeepsPlaces Q.spare self.old self.new }
    {
        self.moment = now;
        self.entries += 1;
    }

    /// The demultiplexer reported on the handle: `Ready`. It uses a place for an event.
    pub fn ready(&mut self, handle: Handle, kind: Kind)
        requires can { CanStep Q.timers self.old HasNumber }
        requires room { HasPlaces Q.spare (record no_places { events = 1 }) self.old }
        ensures steps { TakesTo Q.timers self.old HasNumber (λ s. after s (Entry.Ready handle kind))
            self.new }
        ensures places { UsesPlaces Q.spare self.old (λ p. record p { events = p.events - 1 })
            self.new }
    {
        self.waiting.push(WaitingEvent {
            event: self.entries,
            handle,
            upcall: upcall_of(kind),
            due: None,
        });
        self.entries += 1;
    }

    /// The picked event is started: `Started`. It uses a place for an open event, and one for a
    /// timer if it is a periodic timer that came due, which is armed again.
    pub fn start(&mut self, pick: Pick)
        requires can { CanStep Q.timers self.old (λ s. HasNumber s × (S.pick s ≡ Some pick.event)) }
        requires placed { IsPlaced self.old pick }
        requires room { HasPlaces Q.spare (record no_places { opens = 1; timers = 1 }) self.old }
        ensures steps { TakesTo Q.timers self.old (λ s. HasNumber s × (S.pick s ≡ Some pick.event))
            (λ s. after s (Entry.Started pick.event.event)) self.new }
        ensures places { UsesPlaces Q.spare self.old (λ p. record p {
          opens = p.opens - 1;
          timers = p.timers - 1;
        }) self.new }
    {
        let event = pick.event;
        self.waiting.take(event.upcall, pick.place);
        self.armed.arm_again(self.moment, event.handle, event.due);
        self.opens.push_reserved(OpenEvent {
            event: event.event,
            handle: event.handle,
            upcall: event.upcall,
            moment: self.moment,
        });
        self.entries += 1;
    }

    /// The life of the handle ends, and with it all that waits for it.
    fn end_of(&mut self, handle: Handle)
        ensures tables { (s : Summary) (hi : ℕ) → HasTables Q.timers self.old s
            → RisesIn handle_number 0 hi s.handles
            → HasTables Q.timers self.new (without_handle handle s) }
        ensures places { KeepsPlaces Q.spare self.old self.new }
    {
        let was_alive = end_life(&mut self.handles, handle);
        self.alive = fewer(self.alive, was_alive);
        self.waiting.drop_of(handle);
        self.armed.disarm_all(handle);
    }

    /// The event asks for its upcall once more, if the handle is alive.
    fn again(&mut self, event: OpenEvent)
        requires { HasRoom (capacities self.old.waiting) 1 1 (queues self.old.waiting) }
        ensures tables { (s : Summary) (hi : ℕ) → HasTables Q.timers self.old s
            → RisesIn handle_number 0 hi s.handles
            → HasTables Q.timers self.new (record s {
              waiting = s.waiting ++ S.waiting_again s (Some event);
            }) }
        ensures places { UsesPlaces Q.spare self.old but_an_event self.new }
    {
        if is_alive(&self.handles, event.handle) {
            self.waiting.push(WaitingEvent {
                event: self.entries,
                handle: event.handle,
                upcall: event.upcall,
                due: None,
            });
        }
    }

    /// What an answer makes of an event that was open.
    fn answered(&mut self, found: Option<OpenEvent>, answer: Answer)
        requires { HasRoom (capacities self.old.waiting) 1 1 (queues self.old.waiting) }
        ensures tables { (s : Summary) (hi : ℕ) → HasTables Q.timers self.old s
            → RisesIn handle_number 0 hi s.handles
            → HasTables Q.timers self.new (answered found answer s) }
        ensures places { UsesPlaces Q.spare self.old but_an_event self.new }
    {
        match found {
            None => {}
            Some(event) => {
                match answer {
                    Answer::Keep => {}
                    Answer::Again => self.again(event),
                    Answer::Close => self.end_of(event.handle),
                }
            }
        }
    }

    /// An upcall is settled: `Returned`, whatever was noted. It uses a place for a timeout, or one
    /// for another event, if the answer asks for the upcall once more.
    pub fn settle<N>(&mut self, event: u64, answer: Answer)
        requires can { CanStep Q.timers self.old HasNumber }
        requires room { HasPlaces Q.spare (record no_places { timeouts = 1; events = 1 }) self.old }
        ensures steps { (note : N) → TakesTo Q.timers self.old HasNumber
            (λ s. S.step s (Entry.Returned event answer note)) self.new }
        ensures places { UsesPlaces Q.spare self.old but_an_event self.new }
    {
        let entries = self.entries + 1;
        let found = find_open(&self.opens, event);
        settle(&mut self.opens, event);
        self.answered(found, answer);
        self.entries = entries;
    }

    /// A live handle is closed: `Closed`, whatever was noted.
    pub fn close<N>(&mut self, handle: Handle)
        requires { CanStep Q.timers self.old (λ s. HasNumber s
            × (list_any (λ h. h.handle.0 == handle.0) s.handles ≡ true)) }
        ensures steps { (note : N) → TakesTo Q.timers self.old
            (λ s. HasNumber s × (list_any (λ h. h.handle.0 == handle.0) s.handles ≡ true))
            (λ s. S.step s (Entry.Closed handle note)) self.new }
        ensures places { KeepsPlaces Q.spare self.old self.new }
    {
        let was_alive = close(&mut self.handles, handle);
        self.alive = fewer(self.alive, was_alive);
        self.closed += 1;
        self.entries += 1;
    }

    /// The handler is removed: `Removed`.
    pub fn remove(&mut self, handle: Handle)
        requires { CanStep Q.timers self.old HasNumber }
        ensures steps { TakesTo Q.timers self.old HasNumber (λ s. after s (Entry.Removed handle))
            self.new }
        ensures places { KeepsPlaces Q.spare self.old self.new }
    {
        self.end_of(handle);
        self.entries += 1;
    }

    /// The reactor is stopped: `Ended`.
    pub fn end(&mut self)
        requires { CanStep Q.timers self.old HasNumber }
        ensures steps { TakesTo Q.timers self.old HasNumber (λ s. after s Entry.Ended) self.new }
        ensures places { KeepsPlaces Q.spare self.old self.new }
    {
        self.ended = true;
        self.entries += 1;
    }

    /// A notification is delivered: `Posted`, whoever posted it. It uses a place for an event.
    pub fn post(&mut self, handle: Handle, kind: Kind)
        requires can { CanStep Q.timers self.old HasNumber }
        requires room { HasPlaces Q.spare (record no_places { events = 1 }) self.old }
        ensures steps { (from seq : ℕ) → TakesTo Q.timers self.old HasNumber
            (λ s. after s (Entry.Posted handle kind from seq)) self.new }
        ensures places { UsesPlaces Q.spare self.old (λ p. record p { events = p.events - 1 })
            self.new }
    {
        self.waiting.push(WaitingEvent {
            event: self.entries,
            handle,
            upcall: Upcall::Notice { kind },
            due: None,
        });
        self.entries += 1;
    }

    /// A notification is for a handle that is not alive: `Stale`, whatever it is. There is one
    /// entry more, and nothing else.
    pub fn skip(&mut self)
        requires { CanStep Q.timers self.old HasNumber }
        ensures steps { (stale : Handle) (from seq : ℕ) → TakesTo Q.timers self.old HasNumber
            (λ s. after s (Entry.Stale stale from seq)) self.new }
        ensures places { KeepsPlaces Q.spare self.old self.new }
    {
        self.entries += 1;
    }

    /// A handler that an upcall offered is not registered: `Refused`, whatever was noted.
    pub fn refuse<N>(&mut self)
        requires { CanStep Q.timers self.old HasNumber }
        ensures steps { (live : ℕ) (fault : Bool) (note : N)
            → TakesTo Q.timers self.old HasNumber (λ s. S.step s (Entry.Refused live fault note))
            self.new }
        ensures places { KeepsPlaces Q.spare self.old self.new }
    {
        self.refused += 1;
        self.entries += 1;
    }
}
