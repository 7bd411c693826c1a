// What a token keeps, and what a pass knows of it.
ghost use Rattle.std.specs.Prelude.{◌≡◌, ◌≤◌, ℕ, List, length};
ghost use Rattle.list_lemmas.specs.Times.{times};

use std::collections::LinkedList;

/// A value that stands for a list of entries, of which each may open or close events. The members
/// are for contracts alone.
pub trait Kept {
    /// One entry of the list.
    type Entry;

    /// What the value started with and never changes. All passes of a token carry the same terms.
    type Terms;

    // Under these terms the value stands for the list, of which it itself no longer holds so many
    // entries at the front.
    ghost stands: { Self.Terms → ℕ → Self → List Self.Entry → Type 0 };

    // The events that a list leaves open.
    ghost opens: { List Self.Entry → List ℕ };

    // Numbers of the value that never fall from one hold to the next.
    ghost marks: { Self → List ℕ };

    // Some terms, for views that say nothing.
    ghost blank: { Self.Terms };

    // A list that a value stands for leaves no event open twice.
    ghost once: { (terms : Self.Terms) (first : ℕ) (value : Self) (list : List Self.Entry)
        → stands terms first value list → (event : ℕ) → times event (opens list) ≤ 1 };

    // Each value has as many marks.
    ghost equally_many: { (one other : Self) → length (marks one) ≡ length (marks other) };
}

/// The list and the marks that a pass found when it got the value. Contracts alone speak of it.
pub struct Found<E> {
    pub list: LinkedList<E>,
    pub marks: LinkedList<u64>,
}

/// What a pass knows. Contracts alone speak of it.
pub struct View<E, Q> {
    pub terms: Q,
    /// The list that the value stood for when this pass last put it back, or when the pass was
    /// made.
    pub seen: LinkedList<E>,
    /// The shorter of the two lists at a join, until the join compared them; otherwise empty.
    pub uncompared: LinkedList<E>,
    /// The value's marks when this pass last put it back, or when the pass was made.
    pub marks: LinkedList<u64>,
    /// What it found, while it holds the token.
    pub base: Option<Found<E>>,
    /// The open event that is its own.
    pub mine: Option<u64>,
    pub root: bool,
    /// How many passes it split and did not join.
    pub children: u64,
    /// It was joined.
    pub spent: bool,
}
