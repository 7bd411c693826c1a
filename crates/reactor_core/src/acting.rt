//! What a turn asks for, once its upcall is settled.
ghost use Rattle.std.specs.Prelude.{◌≡◌, ◌+◌, ◌++◌, ◌∷◌, [], None, true, false};
ghost use Rattle.reactor_model.specs.reactor_journal.specs.declared.entry.Entry.{Entry};
ghost use Rattle.reactor_model.specs.reactor_journal.specs.Past.{past_of};
ghost use Rattle.reactor_summary.specs.Summary.{summary, is_alive};
ghost use Rattle.reactor_summary.specs.Rules.{live};
ghost use Rattle.reactor_model.specs.Turns.{IsTimer};
ghost use Rattle.reactor_core.specs.Rest.{LeavesButAttaches, LeavesRest};
ghost use Rattle.reactor_core.specs.Steps.{MayTurnAway};
ghost use Rattle.reactor_core.specs.Stands.{From, FromRoom, FromTracks, RoomWith, Somewhere, Each};
ghost use Rattle.reactor_core.specs.Stands.{Stands, StandsWith, StandsWithRoom};
ghost use Rattle.reactor_core.specs.Registering.{IsOffered};
ghost use Rattle.reactor_core.specs.Settling.{act_places};
ghost use Rattle.reactor_core.specs.Upcalls.{DoneFits};
ghost use Rattle.reactor_core.specs.Acting.{FitsAct, Acts, CanInstall, Installs, Settles, is_mine};
ghost use Rattle.reactor_core.specs.Acting.{is_of, mask_mine, cancel_mine};

use crate::append::append;
use crate::means::Means;
use crate::registering::has_place;
use crate::{Core, Done};
use ev_base::{Handle, Mask, Net, Why};
use reactor_model::{Act, Entry, EventHandler, Turn, Volumes, Watch};
use reactor_summary::OpenEvent;
use timer_queue::TimerQueue;

/// What the journal came to when an upcall was settled.
#[derive(Clone, Copy, PartialEq, Eq, Debug)]
pub struct Settled {
    /// How many entries it has, with those that were handed over.
    pub entries: u64,
    /// How many handlers were closed, or not registered.
    pub closed: u64,
    /// Whether the reactor was stopped.
    pub ended: bool,
}

/// Whether the owner of a timer, if it has one, is the handle.
fn is_of(handle: Handle, owner: Option<Handle>) -> bool
    ensures { result ≡ is_of handle.0 owner }
{
    match owner {
        Some(owner) => owner.0 == handle.0,
        None => false,
    }
}

impl<
    H: EventHandler,
    M: Net<End = H::End>,
    Q: TimerQueue,
    W: Watch<H::Note>,
    V: Volumes<H::Note>,
> Core<H, M, Q, W, V> {
    /// Settles an upcall that was made. The journal has `Returned`; if the handle is not alive
    /// any more its handler is closed, for itself if its own answer ended its life and else as
    /// it was removed, and `Closed` follows; else the handler goes home. Then the act of the turn
    /// is done. It takes no memory and cannot fail.
    pub fn settle(&mut self, done: Done<H>) -> Settled
        requires stands { StandsWith ⟦<Self as Means>⟧.m
            (λ t h. DoneFits H.means t (past_of h) done) self.old }
        ensures stands { From ⟦<Self as Means>⟧.m self.old (λ t F h.
            DoneFits H.means t (past_of h) done
            → Settles ⟦<Self as Means>⟧.m t F h done self.old self.new result) }
        ensures rest { LeavesButAttaches ⟦<Self as Means>⟧.m self.old self.new }
    {
        let Done {
            event,
            handle,
            upcall,
            now,
            handler,
            turn,
        } = done;
        let Turn { answer, note, act } = turn;
        self.settle_event(
            OpenEvent {
                event,
                handle,
                upcall,
                moment: now,
            },
            answer,
            note,
            handler,
        );
        self.act(handle, act);
        Settled {
            entries: self.state.entries(),
            closed: self.state.finished(),
            ended: self.state.is_ended(),
        }
    }

    /// Does the act of a turn of the handle's handler.
    fn act(&mut self, handle: Handle, act: Option<Act<H>>)
        requires stands { RoomWith ⟦<Self as Means>⟧.m 4 act_places
            (λ t h. FitsAct H.means t (past_of h) act) self.old }
        ensures stands { FromRoom ⟦<Self as Means>⟧.m 4 act_places self.old (λ t F h.
            FitsAct H.means t (past_of h) act
            → Acts ⟦<Self as Means>⟧.m t F h handle act self.old self.new) }
        ensures rest { LeavesButAttaches ⟦<Self as Means>⟧.m self.old self.new }
    {
        match act {
            None => {}
            Some(
                Act::Install {
                    handler,
                    mask,
                    timer,
                },
            ) => self.install(handler, mask, timer),
            Some(Act::MaskMine(mask)) => self.mask_mine(handle, mask),
            Some(Act::CancelMine { timer }) => self.cancel_mine(handle, timer),
            Some(Act::Stop) => self.stop(),
        }
    }

    /// Registers a handler that an upcall offered, or refuses it.
    fn install(&mut self, handler: H, mask: Mask, timer: Option<(u64, u64)>)
        requires stands { RoomWith ⟦<Self as Means>⟧.m 4 act_places
            (λ t h. IsOffered H.means t (past_of h) handler) self.old }
        requires timer { IsTimer timer }
        ensures stands { FromRoom ⟦<Self as Means>⟧.m 4 act_places self.old (λ t F h.
            IsOffered H.means t (past_of h) handler
            → Installs ⟦<Self as Means>⟧.m t F h mask timer self.old self.new) }
        ensures rest { LeavesButAttaches ⟦<Self as Means>⟧.m self.old self.new }
    {
        if !self.can_install() {
            self.refuse(handler, false);
            return;
        }
        match self.admit(handler, mask, timer) {
            Ok(_) => {}
            Err(back) => self.refuse(back, true),
        }
    }

    /// Whether a handler that an upcall offered may be registered: the reactor was not stopped, and
    /// is not full.
    fn can_install(&self) -> bool
        ensures { FromTracks ⟦<Self as Means>⟧.m None [] self.now
            (λ t F h. CanInstall t.most (summary (past_of h)) result) }
    {
        if self.state.is_ended() {
            return false;
        }
        has_place(self.state.live(), self.most, self.state.opened())
    }

    /// Closes a handler that is not registered, and turns its end away.
    fn refuse(&mut self, handler: H, fault: bool)
        requires may { Somewhere (MayTurnAway ⟦<Self as Means>⟧.m handler fault) self.old }
        ensures stands { Each (MayTurnAway ⟦<Self as Means>⟧.m handler fault) self.old (λ t F h.
            (note : H.Note) × Stands ⟦<Self as Means>⟧.m t self.new F
            (h ++ Entry.Refused (live (summary (past_of h))) fault note ∷ [])) }
        ensures rest { LeavesRest ⟦<Self as Means>⟧.m self.old self.new }
    {
        let live = self.state.live();
        let (end, note) = handler.handle_close(Why::Refused);
        self.net.turn_away(end);
        self.state.refuse::<H::Note>();
        append(
            &mut self.journal,
            &mut self.watch,
            Entry::Refused { live, fault, note },
        );
    }

    /// Changes the mask of a handle if it is alive.
    fn mask_mine(&mut self, handle: Handle, mask: Mask)
        requires stands { Somewhere (StandsWithRoom ⟦<Self as Means>⟧.m 4 act_places) self.old }
        ensures stands { FromRoom ⟦<Self as Means>⟧.m 4 act_places self.old (λ t F h.
            Stands ⟦<Self as Means>⟧.m t self.new F
            (h ++ mask_mine (is_alive (summary (past_of h)) handle.0) handle mask)) }
        ensures rest { LeavesRest ⟦<Self as Means>⟧.m self.old self.new }
    {
        if !self.state.is_alive(handle) {
            return;
        }
        self.net.set_mask(handle, mask);
        self.state.set_mask(handle, mask);
        append(
            &mut self.journal,
            &mut self.watch,
            Entry::Masked { handle, mask },
        );
    }

    /// Takes a timer away if it is one of the handle.
    fn cancel_mine(&mut self, handle: Handle, timer: u64)
        requires stands { Somewhere (StandsWithRoom ⟦<Self as Means>⟧.m 4 act_places) self.old }
        ensures stands { FromRoom ⟦<Self as Means>⟧.m 4 act_places self.old (λ t F h.
            Stands ⟦<Self as Means>⟧.m t self.new F
            (h ++ cancel_mine (is_mine (summary (past_of h)) handle.0 timer) timer)) }
        ensures rest { LeavesRest ⟦<Self as Means>⟧.m self.old self.new }
    {
        if !self.is_mine(handle, timer) {
            return;
        }
        self.state.cancel(timer);
        append(
            &mut self.journal,
            &mut self.watch,
            Entry::Cancelled { timer },
        );
    }

    /// Whether a timer is one of the handle, and is armed or has an event that waits to be started.
    fn is_mine(&self, handle: Handle, timer: u64) -> bool
        ensures { From ⟦<Self as Means>⟧.m self.now
            (λ t F h. result ≡ is_mine (summary (past_of h)) handle.0 timer) }
    {
        is_of(handle, self.state.armed_handle(timer))
            || is_of(handle, self.state.timeout_handle(timer))
    }
}
