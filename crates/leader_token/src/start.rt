// The first view, as the key of the table: a value of no bytes that carries what a proof picks.
ghost use Rattle.std.specs.Prelude.{◌≡◌};

use crate::kept::{Kept, View};
use logbook::{Opening, Rule, Seen, Start};
use std::marker::{Brand, PhantomData};

/// The view of the root when the token is made. The maker's proof picks it.
pub trait FirstView<E, Q> {
    ghost use Rattle.std.specs.Prelude.{List};
    ghost use Rattle.leader_token.specs.declared.kept.View.{View};

    // A list of one view.
    ghost views: { List (View E Q) };
}

impl<E, Q> FirstView<E, Q> for Brand {
    ghost use Rattle.std.specs.Prelude.{[]};

    ghost views = { [] };
}

/// A rule that asks nothing.
pub struct NoRule;

impl<E> Rule<E, ()> for NoRule {
    ghost use Rattle.std.specs.Prelude.{[]};
    ghost use base.Fml.{ftrue};

    ghost holds = { λ cells log. Unit {0} };

    ghost first = { [] };

    ghost hinted = { λ n log. Unit {0} };

    ghost shows = { λ log. [] };

    ghost keeps = { λ names log. ftrue };

    ghost moves = { λ ask before after answer. Unit {0} };
}

struct OpenedWith<B> {
    marker: PhantomData<B>,
}

impl<E, Q, B: FirstView<E, Q>> Opening<(), View<E, Q>> for OpenedWith<B> {
    ghost log = { λ n about. B.views };
}

/// The key of a token's table: a list of its first view.
pub type Key<T> = Seen<View<<T as Kept>::Entry, <T as Kept>::Terms>, (), NoRule>;

pub(crate) fn key<T: Kept, B: FirstView<T::Entry, T::Terms>>() -> Key<T>
    ensures { result.log ≡ B.views }
{
    Seen::<View<T::Entry, T::Terms>, (), NoRule>::open_row::<(), OpenedWith<B>>(
        &(),
        Start::alone(),
        0,
    ).0
}
