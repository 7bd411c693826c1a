//! Watches: what sees each entry of a journal as it is appended.
ghost use Rattle.std.specs.Prelude.{◌≡◌, ◌≤◌, ℕ, List, [], ◌++◌, ◌∷◌, Bool, true, false, Some};
ghost use Rattle.ev_base.specs.Counts.{Rose};
ghost use Rattle.ev_base.specs.Terms.{Terms};
ghost use Rattle.reactor_journal.specs.declared.entry.Entry.{Entry};

use reactor_journal::Entry;

/// Sees each entry of a journal in order, as it is appended. It takes no memory and refuses
/// nothing.
pub trait Watch<N> {
    /// It has seen exactly these entries.
    ghost stands: { Terms → Self → List (Entry N) → Type 0 };

    /// How often it failed: that of its sink, if it has one.
    ghost faults: { Self → ℕ };

    /// Whether it failed.
    ghost is_broken: { Self → Bool };

    /// How many entries it has seen, from the first on, without a failure.
    ghost whole: { Self → ℕ };

    /// Sees one more entry. No count falls, and it breaks only if that of its faults rose.
    fn saw(&mut self, entry: &Entry<N>)
        ensures stands { (t : Terms) (h : List (Entry N)) → stands t self.old h
            → stands t self.new (h ++ entry.now ∷ []) }
        ensures later { faults self.old ≤ faults self.new }
        ensures stays { is_broken self.old ≡ true → is_broken self.new ≡ true }
        ensures breaks { is_broken self.old ≡ false → is_broken self.new ≡ true
            → Rose (faults self.old) (faults self.new) }
        ensures whole { whole self.old ≤ whole self.new };

    /// Whether it failed.
    fn broken(&self) -> bool
        ensures { result ≡ is_broken self.now };

    /// If one that stands for a list is broken, its count is above that of the output at the
    /// start, if the terms have it.
    ghost broke: { (t : Terms) (watch : Self) (h : List (Entry N)) (before : ℕ) → stands t watch h
        → is_broken watch ≡ true → t.output_faults ≡ Some before → Rose before (faults watch) };
}

/// A watch that sees nothing and never breaks.
#[derive(Clone, Copy, PartialEq, Eq, Debug)]
pub struct NoWatch;

impl<N> Watch<N> for NoWatch {
    ghost stands = { λ _ _ _. Unit {0} };

    ghost faults = { λ _. 0 };

    ghost is_broken = { λ _. false };

    ghost whole = { λ _. 0 };

    fn saw(&mut self, _entry: &Entry<N>) {}

    fn broken(&self) -> bool {
        false
    }

    ghost broke = { λ t watch h before stands broken. absurd (Prim.cc) };
}
