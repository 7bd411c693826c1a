// The rule of the table under a token, and what each of its steps tells.
ghost use Rattle.std.specs.Prelude.{◌≡◌};

use crate::kept::{Kept, View};
use crate::start::Key;
use atomic_table::{Join, Play, Split, TableRule};
use std::marker::PhantomData;

/// Between any two steps: who holds the token, where the value is, what each pass has seen, and
/// whose the open events are.
pub struct TokenRule<T> {
    marker: PhantomData<T>,
}

impl<T: Kept> TableRule<Option<Box<T>>, View<T::Entry, T::Terms>, Key<T>> for TokenRule<T> {
    ghost use Rattle.leader_token.specs.Rule.{named};
    ghost use Rattle.leader_token.specs.Boxed.{RuleHoldsBoxed};

    ghost holds = { λ key. RuleHoldsBoxed T.stands T.opens T.marks (named T.blank key.log).terms };

    ghost first = { λ key. named T.blank key.log };
}

/// The token is taken if it is free.
pub struct Claim<T> {
    marker: PhantomData<T>,
}

impl<T: Kept> Play<Option<Box<T>>, View<T::Entry, T::Terms>> for Claim<T> {
    ghost use Rattle.leader_token.specs.Boxed.{ClaimedBoxed};

    ghost then = { λ st m r n. ClaimedBoxed T.stands T.opens T.marks m r n };
}

/// The token is free again.
pub struct Release<T> {
    marker: PhantomData<T>,
}

impl<T: Kept> Play<Option<Box<T>>, View<T::Entry, T::Terms>> for Release<T> {
    ghost use Rattle.leader_token.specs.Boxed.{ReleasedBoxed};

    ghost then = { λ st m r n. ReleasedBoxed T.stands T.opens T.marks m n };
}

/// The root makes a pass.
pub struct SplitPass;

impl<E, Q> Split<View<E, Q>> for SplitPass {
    ghost use Rattle.leader_token.specs.Passes.{split_left, split_right};

    ghost left = { split_left };

    ghost right = { split_right };
}

/// The root takes a pass in.
pub struct JoinPass<T> {
    marker: PhantomData<T>,
}

impl<T: Kept> Join<View<T::Entry, T::Terms>> for JoinPass<T> {
    ghost use Rattle.leader_token.specs.Rule.{joining, spent};

    ghost both = { joining };

    ghost spent = { spent T.blank };
}

/// The root compares the lists that it joined.
pub struct Compare<T> {
    marker: PhantomData<T>,
}

impl<T: Kept> Play<Option<Box<T>>, View<T::Entry, T::Terms>> for Compare<T> {
    ghost use Rattle.leader_token.specs.Rule.{Compared};

    ghost then = { λ st m r n. Compared T.opens m n };
}
