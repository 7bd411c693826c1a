//! What the entries of timers change of the state.

ghost use Rattle.std.specs.Prelude.{◌≡◌, ◌≤◌, ◌-◌, ◌^◌, true, false, IfSome, IfNone};
ghost use Rattle.reactor_summary.specs.reactor_journal.specs.declared.entry.Entry.{Entry};
ghost use Rattle.reactor_summary.specs.Summary as S;
ghost use Rattle.reactor_summary.specs.Summary.{Summary};
ghost use Rattle.reactor_state.specs.State.{after, no_places, CanStep, TakesTo, Tells, Shows};
ghost use Rattle.reactor_state.specs.State.{HasPlaces, KeepsPlaces, UsesPlaces, HasNumber};

use crate::state::ReactorState;
use ev_types::{Handle, Upcall};
use reactor_summary::{DueTimer, WaitingEvent};
use timer_queue::{Timer, TimerQueue};

impl<Q: TimerQueue> ReactorState<Q> {
    /// A timer is set for the handle: `Scheduled`. The first deadline is at most 2^63 and the
    /// period at most 4,294,967,295 milliseconds, 0 for once. It answers the timer's number, and
    /// uses a place for a timer.
    pub fn schedule(&mut self, handle: Handle, first: u64, every: u64) -> u64
        requires can { CanStep Q.timers self.old (λ s. HasNumber s × (first ≤ 2 ^ 63)
            × (every ≤ 4294967295)) }
        requires room { HasPlaces Q.spare (record no_places { timers = 1 }) self.old }
        ensures number { Tells Q.timers self.old (λ s. result ≡ s.scheduled) }
        ensures steps { TakesTo Q.timers self.old (λ s. HasNumber s × (first ≤ 2 ^ 63)
            × (every ≤ 4294967295)) (λ s. after s (Entry.Scheduled result handle first every))
            self.new }
        ensures places { UsesPlaces Q.spare self.old (λ p. record p { timers = p.timers - 1 })
            self.new }
    {
        let timer = self.scheduled;
        self.armed.arm(Timer {
            deadline: first,
            timer,
            handle,
            every,
        });
        self.scheduled += 1;
        self.entries += 1;
        timer
    }

    /// The timer is taken away, and with it its timeouts that wait: `Cancelled`.
    pub fn cancel(&mut self, timer: u64)
        requires { CanStep Q.timers self.old HasNumber }
        ensures steps { TakesTo Q.timers self.old HasNumber (λ s. after s (Entry.Cancelled timer))
            self.new }
        ensures places { KeepsPlaces Q.spare self.old self.new }
    {
        self.armed.disarm(timer);
        self.waiting.drop_timeouts(timer);
        self.entries += 1;
    }

    /// The first deadline, if it is reached: `Due`, and the number of its timer. It uses a place
    /// for a timeout. If no deadline is reached it answers `None`, and all is as before.
    pub fn due(&mut self) -> Option<u64>
        requires can { CanStep Q.timers self.old HasNumber }
        requires room { HasPlaces Q.spare (record no_places { timeouts = 1 }) self.old }
        ensures first { IfSome result (λ timer. Tells Q.timers self.old
            (λ s. S.is_first_due s timer ≡ true)) }
        ensures steps { IfSome result (λ timer. TakesTo Q.timers self.old HasNumber
            (λ s. after s (Entry.Due timer)) self.new) }
        ensures places { UsesPlaces Q.spare self.old (λ p. record p { timeouts = p.timeouts - 1 })
            self.new }
        ensures none { IfNone result (Tells Q.timers self.old (λ s. S.is_overdue s ≡ false)) }
        ensures unchanged { IfNone result ((s : Summary) → Shows Q.timers self.old s
            → Shows Q.timers self.new s) }
        ensures unused { IfNone result (KeepsPlaces Q.spare self.old self.new) }
    {
        match self.armed.pop_due(self.moment) {
            None => None,
            Some(t) => {
                self.waiting.push(WaitingEvent {
                    event: self.entries,
                    handle: t.handle,
                    upcall: Upcall::Timeout { timer: t.timer },
                    due: Some(DueTimer {
                        timer: t.timer,
                        deadline: t.deadline,
                        every: t.every,
                    }),
                });
                self.entries += 1;
                Some(t.timer)
            }
        }
    }
}
