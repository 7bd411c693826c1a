//! The waiting events, in a queue for each class.

ghost use Rattle.std.specs.Prelude.{◌≡◌, ◌<◌, ◌≤◌, ◌==◌, ◌+◌, not, true, ℕ, [], length, filter};
ghost use Rattle.std.specs.Prelude.{OnOk, IsOk, IfSome, slice_get, Some};
ghost use Rattle.std.specs.List.{list_any, find, remove};
ghost use Rattle.std.specs.Option.{option_map};
ghost use Rattle.std.specs.VecDeque.{deque_items, deque_capacity};
ghost use Rattle.reactor_summary.specs.reactor_journal.specs.Past as P;
ghost use Rattle.reactor_summary.specs.Summary as S;
ghost use Rattle.reactor_state.specs.Rises.{RisesIn};
ghost use Rattle.reactor_state.specs.Sound.{handle_number, IfRising};
ghost use Rattle.reactor_state.specs.Tables.{is_free, queues, by_class, queue_of, with_queue};
ghost use Rattle.reactor_state.specs.Tables.{with_event, kept, dropped, masked, capacities};
ghost use Rattle.reactor_state.specs.Tables.{HasRoom, HasRoomFor};

use crate::handles::is_resumed;
use crate::opens::is_busy;
use crate::places::Pick;
use ev_types::{Handle, Mask, NoMemory, Upcall};
use reactor_summary::{LiveHandle, OpenEvent, WaitingEvent, is_timeout_of};
use std::alloc::Global;
use std::collections::VecDeque;

/// The waiting events of each class, those that came first in front.
#[derive(Drop)]
pub struct Waiting {
    pub timeouts: VecDeque<WaitingEvent>,
    pub notices: VecDeque<WaitingEvent>,
    pub outputs: VecDeque<WaitingEvent>,
    pub excepts: VecDeque<WaitingEvent>,
    pub inputs: VecDeque<WaitingEvent>,
}

/// Whether an event of the handle may be started.
fn is_free(handles: &[LiveHandle], opens: &[OpenEvent], handle: Handle) -> bool
    ensures { IfRising handles.now (result ≡ is_free handles.now opens.now handle.0) }
{
    is_resumed(handles, handle) && !is_busy(opens, handle)
}

/// The first event of a queue whose handle is free. It goes past those alone whose handle is busy
/// or suspended.
fn first_free(
    queue: &VecDeque<WaitingEvent>,
    handles: &[LiveHandle],
    opens: &[OpenEvent],
) -> Option<Pick>
    ensures first { IfRising handles.now (option_map (λ p. p.event) result
        ≡ find (λ w. is_free handles.now opens.now w.handle.0) (deque_items queue.now)) }
    ensures placed { IfSome result (λ p. slice_get (deque_items queue.now) p.place ≡ Some p.event) }
{
    for place in 0..queue.len() {
        let event = queue[place];
        if is_free(handles, opens, event.handle) {
            return Some(Pick { event, place });
        }
    }
    None
}

/// Whether a queue has no event.
fn is_empty(queue: &VecDeque<WaitingEvent>) -> bool
    ensures { result ≡ (length (deque_items queue.now) == 0) }
{
    queue.is_empty()
}

/// Takes the events of the handle out of a queue.
fn drop_of(queue: &mut VecDeque<WaitingEvent>, handle: Handle)
    ensures items { deque_items queue.new ≡ filter (λ w. not (handle.0 == w.handle.0))
        (deque_items queue.old) }
    ensures capacity { deque_capacity queue.new ≡ deque_capacity queue.old }
{
    queue.retain(|w| handle.0 != w.handle.0);
}

/// Takes the timeouts of the timer out of a queue.
fn drop_timeouts(queue: &mut VecDeque<WaitingEvent>, timer: u64)
    ensures items { deque_items queue.new ≡ filter (λ w. not (P.is_timeout_of timer w.upcall))
        (deque_items queue.old) }
    ensures capacity { deque_capacity queue.new ≡ deque_capacity queue.old }
{
    queue.retain(|w| !is_timeout_of(timer, w.upcall));
}

/// Takes the events of the handle out of a queue, if that is asked for.
fn drop_if(queue: &mut VecDeque<WaitingEvent>, which: bool, handle: Handle)
    ensures items { deque_items queue.new ≡ dropped which handle.0 (deque_items queue.old) }
    ensures capacity { deque_capacity queue.new ≡ deque_capacity queue.old }
{
    if which {
        drop_of(queue, handle);
    }
}

/// The handle of the first timeout of the timer in a queue.
#[tactic(auto, using(crate::proofs::Lists::find_more))]
fn first_timeout(queue: &VecDeque<WaitingEvent>, timer: u64) -> Option<Handle>
    ensures { result ≡ option_map (λ w. w.handle)
        (find (λ w. P.is_timeout_of timer w.upcall) (deque_items queue.now)) }
{
    for place in 0..queue.len() {
        let event = queue[place];
        if is_timeout_of(timer, event.upcall) {
            return Some(event.handle);
        }
    }
    None
}

/// Takes the event at a place out of a queue.
fn take_at(queue: &mut VecDeque<WaitingEvent>, place: usize)
    requires { place < length (deque_items queue.old) }
    ensures items { deque_items queue.new ≡ remove (deque_items queue.old) place }
    ensures capacity { deque_capacity queue.new ≡ deque_capacity queue.old }
{
    if place == 0 {
        let _ = queue.pop_front();
    } else {
        let _ = queue.remove(place);
    }
}

/// Whether there is room for so many more in a queue.
fn fits(queue: &VecDeque<WaitingEvent>, more: usize) -> bool
    ensures { result ≡ true → length (deque_items queue.now) + more ≤ deque_capacity queue.now }
{
    more <= queue.capacity() - queue.len()
}

impl Waiting {
    /// No waiting events. It takes no memory.
    pub fn new(alloc: Global) -> Waiting
        ensures { queues result ≡ by_class [] }
    {
        Waiting {
            timeouts: VecDeque::new(alloc),
            notices: VecDeque::new(alloc),
            outputs: VecDeque::new(alloc),
            excepts: VecDeque::new(alloc),
            inputs: VecDeque::new(alloc),
        }
    }

    /// Makes room for so many more timeouts, and for so many more events in each other queue.
    pub fn reserve(&mut self, timeouts: usize, events: usize) -> Result<(), NoMemory>
        ensures queues { queues self.new ≡ queues self.old }
        ensures room { OnOk result (HasRoom (capacities self.new) timeouts events
            (queues self.new)) }
        ensures kept { (n m : ℕ) → HasRoom (capacities self.old) n m (queues self.old)
            → HasRoom (capacities self.new) n m (queues self.new) }
        ensures at_once { HasRoom (capacities self.old) timeouts events (queues self.old)
            → IsOk result }
    {
        if self.has_room(timeouts, events) {
            return Ok(());
        }
        self.timeouts.reserve(timeouts)?;
        self.notices.reserve(events)?;
        self.outputs.reserve(events)?;
        self.excepts.reserve(events)?;
        self.inputs.reserve(events)?;
        Ok(())
    }

    /// Whether there is room for so many more timeouts, and for so many more events in each other
    /// queue.
    fn has_room(&self, timeouts: usize, events: usize) -> bool
        ensures { result ≡ true → HasRoom (capacities self.now) timeouts events (queues self.now) }
    {
        fits(&self.timeouts, timeouts)
            && fits(&self.notices, events)
            && fits(&self.outputs, events)
            && fits(&self.excepts, events)
            && fits(&self.inputs, events)
    }

    /// Adds an event at the end of the queue of its class.
    pub fn push(&mut self, event: WaitingEvent)
        requires { HasRoomFor event.upcall (capacities self.old) (queues self.old) }
        ensures queues { queues self.new ≡ with_event event (queues self.old) }
        ensures capacities { capacities self.new ≡ capacities self.old }
    {
        match event.upcall {
            Upcall::Timeout { .. } => self.timeouts.push_back_reserved(event),
            Upcall::Notice { .. } => self.notices.push_back_reserved(event),
            Upcall::Output => self.outputs.push_back_reserved(event),
            Upcall::Except => self.excepts.push_back_reserved(event),
            Upcall::Input => self.inputs.push_back_reserved(event),
        }
    }

    /// The first event of the first class that has one of a free handle.
    pub fn find_pick(&self, handles: &[LiveHandle], opens: &[OpenEvent]) -> Option<Pick>
        ensures first { (s : S.Summary) (hi : ℕ) → RisesIn handle_number 0 hi handles.now
            → s.handles ≡ handles.now → s.opens ≡ opens.now → queues self.now ≡ by_class s.waiting
            → option_map (λ p. p.event) result ≡ S.pick s }
        ensures placed { (s : S.Summary) → queues self.now ≡ by_class s.waiting
            → IfSome result (λ p. slice_get (queue_of p.event.upcall (queues self.now)) p.place
            ≡ Some p.event) }
    {
        if !is_empty(&self.timeouts) {
            if let Some(p) = first_free(&self.timeouts, handles, opens) {
                return Some(p);
            }
        }
        if !is_empty(&self.notices) {
            if let Some(p) = first_free(&self.notices, handles, opens) {
                return Some(p);
            }
        }
        if !is_empty(&self.outputs) {
            if let Some(p) = first_free(&self.outputs, handles, opens) {
                return Some(p);
            }
        }
        if !is_empty(&self.excepts) {
            if let Some(p) = first_free(&self.excepts, handles, opens) {
                return Some(p);
            }
        }
        first_free(&self.inputs, handles, opens)
    }

    /// Takes the event at a place out of the queue of a class.
    pub fn take(&mut self, upcall: Upcall, place: usize)
        requires { place < length (queue_of upcall (queues self.old)) }
        ensures queues { queues self.new ≡ with_queue upcall
            (remove (queue_of upcall (queues self.old)) place) (queues self.old) }
        ensures capacities { capacities self.new ≡ capacities self.old }
    {
        match upcall {
            Upcall::Timeout { .. } => take_at(&mut self.timeouts, place),
            Upcall::Notice { .. } => take_at(&mut self.notices, place),
            Upcall::Output => take_at(&mut self.outputs, place),
            Upcall::Except => take_at(&mut self.excepts, place),
            Upcall::Input => take_at(&mut self.inputs, place),
        }
    }

    /// Takes the events of the handle away.
    pub fn drop_of(&mut self, handle: Handle)
        ensures queues { queues self.new ≡ kept (λ w. not (handle.0 == w.handle.0))
            (queues self.old) }
        ensures capacities { capacities self.new ≡ capacities self.old }
    {
        drop_of(&mut self.timeouts, handle);
        drop_of(&mut self.notices, handle);
        drop_of(&mut self.outputs, handle);
        drop_of(&mut self.excepts, handle);
        drop_of(&mut self.inputs, handle);
    }

    /// Takes the timeouts of the timer away.
    pub fn drop_timeouts(&mut self, timer: u64)
        ensures queues { queues self.new ≡ record (queues self.old) {
          timeouts = filter (λ w. not (P.is_timeout_of timer w.upcall)) (queues self.old).timeouts;
        } }
        ensures capacities { capacities self.new ≡ capacities self.old }
    {
        drop_timeouts(&mut self.timeouts, timer);
    }

    /// Takes the reports of the handle away that its mask lacks.
    pub fn drop_masked(&mut self, handle: Handle, mask: Mask)
        ensures queues { queues self.new ≡ masked handle.0 mask (queues self.old) }
        ensures capacities { capacities self.new ≡ capacities self.old }
    {
        drop_if(&mut self.outputs, !mask.write, handle);
        drop_if(&mut self.excepts, !mask.except, handle);
        drop_if(&mut self.inputs, !mask.read, handle);
    }

    /// The handle of the first timeout of the timer.
    pub fn timeout_handle(&self, timer: u64) -> Option<Handle>
        ensures { result ≡ option_map (λ w. w.handle)
            (find (λ w. P.is_timeout_of timer w.upcall) (queues self.now).timeouts) }
    {
        first_timeout(&self.timeouts, timer)
    }
}
