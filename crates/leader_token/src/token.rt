// The calls of a token.
ghost use Rattle.std.specs.Prelude.{◌≡◌, ◌+◌, ◌-◌, ◌<◌, true, false, Option, None, Some, List, []};
ghost use Rattle.std.specs.Prelude.{◌∷◌, IfOk, IfErr, IfSome, IfNone, MatchOption, ℕ};
ghost use Rattle.leader_token.specs.Boxed.{IsGotBoxed, IsPutBoxed, MayPutBoxed};
ghost use Rattle.leader_token.specs.Boxed.{OwnEventsDifferBoxed};
ghost use Rattle.leader_token.specs.Lists.{Begins};
ghost use Rattle.leader_token.specs.Passes.{IsGot, IsLast, MayPut, IsPut, first_view, split_left};
ghost use Rattle.leader_token.specs.Passes.{split_right, joined, IsOpenLater};
ghost use Rattle.leader_token.specs.Rule.{MayStart};
ghost use Rattle.leader_token.specs.Words.{id_of, token_of, value_of, view_of};

use crate::held::Held;
use crate::kept::{Kept, View};
use crate::pass::{Pass, Token};
use crate::plays::{Claim, Compare, JoinPass, Release, SplitPass};
use crate::start::{FirstView, key};
use atomic_table::{Refused, Seat, Table};
use ev_types::NoMemory;
use std::alloc::Global;
use std::hint::spin_loop;
use std::marker::Brand;
use std::sync::Wait;
use std::sync::atomic::{AtomicU64, Ordering};

// How often a thread looks at a token that is held before it sleeps: some 40 microseconds, in which
// a few holds with a write each end.
const LOOKS: u32 = 1000;

impl<T: Kept> Token<T> {
    /// Makes a token for a value that stands for a list without open events. Its root pass has seen
    /// that list. For want of memory the value comes back.
    pub fn new(alloc: Global, value: T) -> Result<(Token<T>, Pass<T>), (T, NoMemory)>
        ghost start: { T.Terms × List T.Entry }
        requires stands { (first : ℕ) × T.stands start.0 first value start.1 }
        requires closed { T.opens start.1 ≡ [] }
        ensures root { IfOk result (λ r. (token_of r.1 ≡ id_of r.0)
            × (view_of r.1 ≡ first_view start.0 start.1 (T.marks value))) }
        ensures refused { IfErr result (λ e. e.0 ≡ value) }
    {
        started::<T, Brand>(alloc, value)
    }

    // Takes the token and the value if the token is free.
    fn claim(&self, seat: &mut Seat<Option<Box<T>>, View<T::Entry, T::Terms>>) -> Option<Box<T>>
        requires table { seat.old.table_id ≡ id_of self.now }
        requires free { (seat.old.me.0.spent ≡ false) × (seat.old.me.0.base ≡ None)
            × (seat.old.me.1 ≡ []) }
        ensures table { (seat.new.table_id ≡ seat.old.table_id) × (seat.new.id ≡ seat.old.id) }
        ensures got { MatchOption result (seat.new.me ≡ seat.old.me)
            (λ t. (seat.new.me.1 ≡ (0, None) ∷ [])
            × IsGotBoxed T.stands T.opens T.marks seat.old.me.0 t seat.new.me.0) }
    {
        let shared = &self.table.shared;
        let found = shared.compare_exchange::<Claim<T>>(seat, 0, 0, 1);
        if found == 0 {
            let value = shared.exchange(seat, 0, None).unwrap();
            Some(value)
        } else {
            None
        }
    }

    /// Waits for the value and gets it. It stands for a list that begins with all that the pass has
    /// seen, its marks are at least the pass's, and the pass's own event is open in it. The root,
    /// once every other pass was joined, gets it as the root has seen it.
    pub fn get<R: Wait>(&self, rt: &R, pass: &mut Pass<T>) -> Held<T>
        requires token { token_of pass.old ≡ id_of self.now }
        requires free { (view_of pass.old).base ≡ None }
        ensures token { token_of pass.new ≡ token_of pass.old }
        ensures got { IsGot T.stands T.opens T.marks (view_of pass.old) (value_of result)
            (view_of pass.new) }
    {
        for _ in rt.forever() {
            if let Some(held) = self.try_get(pass) {
                return held;
            }
            self.wait(rt);
        }
        unreachable!()
    }

    /// Gets the value if nobody has it, as `get` does, and does not wait. None leaves all as it
    /// was.
    pub fn try_get(&self, pass: &mut Pass<T>) -> Option<Held<T>>
        requires token { token_of pass.old ≡ id_of self.now }
        requires free { (view_of pass.old).base ≡ None }
        ensures token { token_of pass.new ≡ token_of pass.old }
        ensures got { IfSome result (λ held. IsGot T.stands T.opens T.marks (view_of pass.old)
            (value_of held) (view_of pass.new)) }
        ensures none { IfNone result (view_of pass.new ≡ view_of pass.old) }
    {
        let value = self.claim(&mut pass.seat)?;
        Some(Held { value })
    }

    // A few looks at the word, and then a sleep while it is 1: a hold takes microseconds, and a
    // sleep with its wake takes longer.
    fn wait<R: Wait>(&self, rt: &R) {
        for _ in 0..LOOKS {
            if self.table.shared.peek(0) == 0 {
                return;
            }
            spin_loop();
        }
        self.sleepers.fetch_add(1, Ordering::SeqCst);
        self.table.shared.park(rt, 0, 1);
        self.sleepers.fetch_sub(1, Ordering::SeqCst);
    }

    // Wakes one that sleeps. A thread counts itself among the sleepers before it looks at the word
    // for the last time, and this comes after the word was set, so none that sleeps is missed.
    fn wake(&self) {
        if self.sleepers.load(Ordering::SeqCst) > 0 {
            self.table.shared.wake_one(0);
        }
    }

    // Gives the value and the token back, and wakes one that sleeps.
    fn release(&self, seat: &mut Seat<Option<Box<T>>, View<T::Entry, T::Terms>>, value: Box<T>)
        requires table { seat.old.table_id ≡ id_of self.now }
        requires live { seat.old.me.0.spent ≡ false }
        requires out { seat.old.me.1 ≡ (0, None) ∷ [] }
        requires may { MayPutBoxed T.stands T.opens T.marks seat.old.me.0 value }
        ensures table { seat.new.table_id ≡ seat.old.table_id }
        ensures put { IsPutBoxed T.stands T.opens T.marks seat.old.me.0 value seat.new.me.0
            × (seat.new.me.1 ≡ []) }
    {
        let shared = &self.table.shared;
        let empty = shared.exchange(seat, 0, Some(value));
        let None = empty else { unreachable!() };
        shared.store::<Release<T>>(seat, 0, 0);
        self.wake();
    }

    /// Puts the value back. It neither waits nor takes memory. The value has to stand for a list
    /// that the list found begins, with no mark below those found, and the open events may differ
    /// by the pass's own event alone. The pass has then seen the new list.
    pub fn put(&self, pass: &mut Pass<T>, held: Held<T>)
        requires token { token_of pass.old ≡ id_of self.now }
        requires may { MayPut T.stands T.opens T.marks (view_of pass.old) (value_of held) }
        ensures token { token_of pass.new ≡ token_of pass.old }
        ensures put { IsPut T.stands T.opens T.marks (view_of pass.old) (value_of held)
            (view_of pass.new) }
    {
        let Held { value } = held;
        self.release(&mut pass.seat, value);
    }

    /// Makes a pass that knows what the root knows. It takes no memory.
    pub fn split(&self, root: &mut Pass<T>) -> Pass<T>
        requires token { token_of root.old ≡ id_of self.now }
        requires root { ((view_of root.old).root ≡ true) × ((view_of root.old).base ≡ None) }
        requires room { (view_of root.old).children < 4294967295 }
        ensures token { (token_of root.new ≡ token_of root.old)
            × (token_of result ≡ token_of root.old) }
        ensures root { view_of root.new ≡ split_left (view_of root.old) }
        ensures child { view_of result ≡ split_right (view_of root.old) }
    {
        let seat = self.table.shared.split_seat::<SplitPass>(&mut root.seat);
        Pass { seat }
    }

    /// Takes a pass in. Of the two lists one begins the other, and the root has then seen the
    /// longer. The root's own event is still open, in a list that the longer one begins. It takes
    /// no memory.
    pub fn join(&self, root: &mut Pass<T>, other: Pass<T>)
        requires token { (token_of root.old ≡ id_of self.now) × (token_of other ≡ id_of self.now) }
        requires root { ((view_of root.old).root ≡ true) × ((view_of root.old).base ≡ None) }
        requires child { ((view_of other).root ≡ false) × ((view_of other).base ≡ None)
            × ((view_of other).mine ≡ None) }
        ensures token { token_of root.new ≡ token_of root.old }
        ensures root { view_of root.new ≡ joined (view_of root.old) (view_of other) }
        ensures seen { Begins (view_of root.old).seen (view_of root.new).seen
            × Begins (view_of other).seen (view_of root.new).seen }
        ensures own { (e : ℕ) → (view_of root.old).mine ≡ Some e
            → IsOpenLater T.opens e (view_of root.new).seen }
    {
        let other = other.into_seat();
        let shared = &self.table.shared;
        shared.join_seat::<JoinPass<T>>(&mut root.seat, other);
        shared.load::<Compare<T>>(&mut root.seat, 0);
    }

    /// The value, once every other pass was joined. It stands for the list that the root has seen.
    /// It takes no memory.
    pub fn close(self, root: Pass<T>) -> T
        requires token { token_of root ≡ id_of self }
        requires root { ((view_of root).root ≡ true) × ((view_of root).base ≡ None)
            × ((view_of root).children ≡ 0) }
        ensures last { IsLast T.stands T.opens T.marks (view_of root) result }
    {
        let mut closed = self.into_table().close_with(root.into_seat());
        let last = closed.take(0);
        closed.free();
        let Some(value) = last else { unreachable!() };
        Box::into_inner(value)
    }
}

fn started<T: Kept, B: FirstView<T::Entry, T::Terms>>(
    alloc: Global,
    value: T,
) -> Result<(Token<T>, Pass<T>), (T, NoMemory)>
    requires { MayStart T.stands T.opens T.marks B.views value }
    ensures root { IfOk result (λ r. (token_of r.1 ≡ id_of r.0) × (B.views ≡ view_of r.1 ∷ [])) }
    ensures refused { IfErr result (λ e. e.0 ≡ value) }
{
    let value = match Box::new(alloc, value) {
        Ok(value) => value,
        Err(refused) => return Err((refused.value, NoMemory)),
    };
    let mut slots = match Vec::with_capacity(alloc, 1) {
        Ok(slots) => slots,
        Err(_) => return Err((Box::into_inner(value), NoMemory)),
    };
    slots.push_reserved(Some(value));
    match Table::new(alloc, &[0], slots, &key::<T, B>()) {
        Ok((table, seat)) => {
            let sleepers = AtomicU64::new(0);
            Ok((Token { table, sleepers }, Pass { seat }))
        }
        Err(Refused { mut slots }) => {
            let last = slots.pop();
            let Some(Some(value)) = last else {
                unreachable!()
            };
            slots.destroy_empty();
            Err((Box::into_inner(value), NoMemory))
        }
    }
}

/// A law of every token at any moment: the own events of its passes are, together, the open events
/// of the list that its value stands for, and no two passes have the same one.
pub fn own_events_differ<T: Kept>()
    ensures { OwnEventsDifferBoxed T.stands T.opens T.marks }
{}
