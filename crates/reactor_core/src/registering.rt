//! The registration of handlers.
ghost use Rattle.std.specs.Prelude.{nat_lt, ◌&&◌, ◌≡◌, ◌≤◌, ◌+◌, ◌-◌, ◌++◌, ◌∷◌, [], true, false};
ghost use Rattle.std.specs.Prelude.{None, IfOk, IfErr};
ghost use Rattle.reactor_model.specs.reactor_journal.specs.declared.entry.Entry.{Entry};
ghost use Rattle.reactor_model.specs.reactor_journal.specs.Past.{past_of};
ghost use Rattle.reactor_summary.specs.Summary.{summary, is_alive};
ghost use Rattle.reactor_model.specs.Turns.{IsTimer};
ghost use Rattle.reactor_state.specs.declared.places.Places.{Places};
ghost use Rattle.reactor_state.specs.State.{HasNumber, HasPlaces, no_places};
ghost use Rattle.reactor_core.specs.Rest.{LeavesButAttaches, LeavesRest};
ghost use Rattle.reactor_core.specs.Refusals.{LeavesAdmission, LeavesOffer};
ghost use Rattle.reactor_core.specs.Steps.{MayAdmit, MayOpen};
ghost use Rattle.reactor_core.specs.Stands.{From, FromTracks, Somewhere, Each, Tracks, TracksWith};
ghost use Rattle.reactor_core.specs.Stands.{StandsWith};
ghost use Rattle.reactor_core.specs.Registering.{IsOffered, registered};
ghost use Rattle.reactor_core.specs.Offering.{TakesHandle, ComesBack, RegisterGives, AdmitGives};

use crate::Core;
use crate::append::append;
use crate::means::Means;
use ev_base::{Handle, Mask, Net};
use reactor_model::{Entry, EventHandler, Volumes, Watch};
use reactor_state::Places;
use timer_queue::TimerQueue;

/// Why a handler was not registered.
#[derive(Clone, Copy, PartialEq, Eq, Debug)]
pub enum RegisterRefused {
    /// The reactor was stopped.
    Stopped,
    /// As many handlers are live as may be, or 4,294,967,295 were registered.
    Full {
        /// How many handlers are live.
        live: u64,
        /// How many were registered.
        opened: u64,
    },
    /// There was no memory for it.
    NoMemory,
    /// The net could not take its end, and the net's count of failed attaches rose.
    NetFailed,
}

/// How many handles a reactor opens at most.
const MOST_HANDLES: u64 = 4_294_967_295;

/// How many entries a registration takes room for: its own two, and the two that an alive handle
/// owes.
const REGISTER_ENTRIES: usize = 4;

/// The places that it takes: that of a handle, and that of its timer.
const REGISTER_PLACES: Places = Places {
    handles: 1,
    timers: 1,
    timeouts: 0,
    events: 0,
    opens: 0,
};

/// Whether one more handler can be taken.
pub(crate) fn has_place(live: u64, most: u64, opened: u64) -> bool
    ensures { result ≡ (nat_lt live most && nat_lt opened 4294967295) }
{
    live < most && opened < MOST_HANDLES
}

impl<
    H: EventHandler,
    M: Net<End = H::End>,
    Q: TimerQueue,
    W: Watch<H::Note>,
    V: Volumes<H::Note>,
> Core<H, M, Q, W, V> {
    /// Registers a handler (ACE's `register_handler`), with the reports that it wants and, if
    /// one is given, a timer: its first delay, from 1 to 4,294,967,295 milliseconds, and its
    /// period, 0 for once. The journal has `Opened`, and `Scheduled` for the timer. With each
    /// refusal the handler that was offered comes back, and all is as it was, but that after
    /// `NoMemory` there may be more room. `Stopped` comes exactly if the reactor was stopped;
    /// `Full` exactly if it was not, and as many handlers are live as may be or 4,294,967,295
    /// were registered; `NetFailed` only if the net failed to attach its end. That was tried
    /// once: the net's count of failed attaches rose, and the handler fits what it fitted before.
    pub fn register(
        &mut self,
        handler: H,
        mask: Mask,
        timer: Option<(u64, u64)>,
    ) -> Result<Handle, (H, RegisterRefused)>
        requires stands { StandsWith ⟦<Self as Means>⟧.m
            (λ t h. IsOffered H.means t (past_of h) handler) self.old }
        requires timer { IsTimer timer }
        ensures stands { From ⟦<Self as Means>⟧.m self.old (λ t F h.
            IsOffered H.means t (past_of h) handler
            → RegisterGives ⟦<Self as Means>⟧.m t F h mask timer self.old result self.new) }
        ensures refused { LeavesOffer ⟦<Self as Means>⟧.m handler self.old result self.new }
        ensures rest { LeavesButAttaches ⟦<Self as Means>⟧.m self.old self.new }
    {
        if self.state.is_ended() {
            return Err((handler, RegisterRefused::Stopped));
        }
        let live = self.state.live();
        let opened = self.state.opened();
        if !has_place(live, self.most, opened) {
            return Err((handler, RegisterRefused::Full { live, opened }));
        }
        match self.make_room(REGISTER_ENTRIES, REGISTER_PLACES) {
            Ok(()) => {}
            Err(_) => return Err((handler, RegisterRefused::NoMemory)),
        }
        match self.admit(handler, mask, timer) {
            Ok(handle) => Ok(handle),
            Err(back) => Err((back, RegisterRefused::NetFailed)),
        }
    }

    /// Registers a handler for which there is room, and its timer.
    pub(crate) fn admit(
        &mut self,
        handler: H,
        mask: Mask,
        timer: Option<(u64, u64)>,
    ) -> Result<Handle, H>
        requires stands { Somewhere (MayAdmit ⟦<Self as Means>⟧.m handler) self.old }
        requires timer { IsTimer timer }
        ensures stands { Each (MayAdmit ⟦<Self as Means>⟧.m handler) self.old (λ t F h.
            AdmitGives ⟦<Self as Means>⟧.m t F h mask timer self.old result self.new) }
        ensures leaves { LeavesAdmission ⟦<Self as Means>⟧.m handler self.old result self.new }
        ensures rest { LeavesButAttaches ⟦<Self as Means>⟧.m self.old self.new }
    {
        match self.open_handler(handler, mask) {
            Ok(handle) => match timer {
                Some((delay, every)) => {
                    self.arm(handle, delay, every);
                    Ok(handle)
                }
                None => Ok(handle),
            },
            Err(back) => Err(back),
        }
    }

    /// Registers a handler for which there is room: its end is attached, and the journal has
    /// `Opened`. If the net cannot take the end the handler comes back.
    fn open_handler(&mut self, handler: H, mask: Mask) -> Result<Handle, H>
        requires may { Somewhere (MayOpen ⟦<Self as Means>⟧.m handler) self.old }
        requires journal { 1 ≤ self.old.journal.spare }
        requires seats { 1 ≤ self.old.repo.spare }
        requires net { 1 ≤ (M.facts self.old.net).spare }
        requires places { HasPlaces Q.spare (record no_places { handles = 1 }) self.old.state }
        ensures ok { IfOk result (λ handle. Each (MayOpen ⟦<Self as Means>⟧.m handler) self.old
            (λ t F h. (handle.0 ≡ (summary (past_of h)).opened)
            × Tracks ⟦<Self as Means>⟧.m t self.new F
            (h ++ Entry.Opened handle mask ∷ []) None [])) }
        ensures room { IfOk result (λ handle. TakesHandle ⟦<Self as Means>⟧.m self.old self.new) }
        ensures err { IfErr result (λ back. Each (MayOpen ⟦<Self as Means>⟧.m handler) self.old
            (λ t F h. ComesBack ⟦<Self as Means>⟧.m t F h back self.old self.new)) }
        ensures leaves { LeavesAdmission ⟦<Self as Means>⟧.m handler self.old result self.new }
        ensures rest { LeavesButAttaches ⟦<Self as Means>⟧.m self.old self.new }
    {
        let mut handler = handler;
        let handle = Handle(self.state.opened());
        match handler.attach_to(&mut self.net, handle, mask) {
            Ok(()) => {}
            Err(_) => return Err(handler),
        }
        self.repo.put(handle, handler);
        let _opened = self.state.open(mask);
        append(
            &mut self.journal,
            &mut self.watch,
            Entry::Opened { handle, mask },
        );
        Ok(handle)
    }

    /// Sets a timer of a handle that is alive: its first delay, from 1, and its period in
    /// milliseconds, 0 for once.
    pub(crate) fn arm(&mut self, handle: Handle, delay: u64, every: u64) -> u64
        requires tracks { TracksWith ⟦<Self as Means>⟧.m None []
            (λ t h. HasNumber (summary (past_of h))) self.old }
        requires delay { delay ≤ 4294967295 }
        requires every { every ≤ 4294967295 }
        requires journal { 1 ≤ self.old.journal.spare }
        requires places { HasPlaces Q.spare (record no_places { timers = 1 }) self.old.state }
        ensures tracks { FromTracks ⟦<Self as Means>⟧.m None [] self.old (λ t F h. 1 ≤ delay
            → is_alive (summary (past_of h)) handle.0 ≡ true → (summary (past_of h)).ended ≡ false
            → HasNumber (summary (past_of h)) → Tracks ⟦<Self as Means>⟧.m t self.new F
            (h ++ Entry.Scheduled (summary (past_of h)).scheduled handle
            ((summary (past_of h)).moment + delay) every ∷ []) None []) }
        ensures number { FromTracks ⟦<Self as Means>⟧.m None [] self.old (λ t F h.
            result ≡ (summary (past_of h)).scheduled) }
        ensures journal { self.new.journal.spare + 1 ≡ self.old.journal.spare }
        ensures places { (p : Places) → HasPlaces Q.spare p self.old.state
            → HasPlaces Q.spare (record p { timers = p.timers - 1 }) self.new.state }
        ensures repo { self.new.repo ≡ self.old.repo }
        ensures net { self.new.net ≡ self.old.net }
        ensures rest { LeavesRest ⟦<Self as Means>⟧.m self.old self.new }
    {
        let first = self.state.moment() + delay;
        let timer = self.state.schedule(handle, first, every);
        append(
            &mut self.journal,
            &mut self.watch,
            Entry::Scheduled {
                timer,
                handle,
                first,
                every,
            },
        );
        timer
    }
}
