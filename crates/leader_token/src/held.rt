// The value while it is out.
ghost use Rattle.std.specs.Prelude.{◌≡◌};
ghost use Rattle.std.specs.Borrow.{Lends, sem};
ghost use Rattle.leader_token.specs.Words.{held_with, value_of};
ghost use Rattle.leader_token.specs.contracts.held.Held.{the_row};

/// The value of a token, which its pass got. It has no `Drop`, so it has to end in `Token::put`.
pub struct Held<T> {
    // In a box, so that a hold moves a pointer.
    pub(crate) value: Box<T>,
}

impl<T> Held<T> {
    /// The value, lent for reading.
    pub fn seen(&self) -> &T
        ensures { result.now ≡ value_of self.now }
    {
        self.value.as_ref()
    }

    /// The value, lent for reading and writing.
    pub fn value(&mut self) -> &mut T
        ensures value { result.now ≡ value_of self.old }
        ensures* writes_back { sem 𝓛 (Lends (the_row T.row) T.row self.entry result
            (λ w. held_with self.old w)) }
    {
        self.value.as_mut()
    }
}
