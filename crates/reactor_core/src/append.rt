//! How an entry comes into the journal.
ghost use Rattle.std.specs.Prelude.{◌≡◌, ◌≤◌, ◌+◌, ◌++◌, ◌∷◌, [], List};
ghost use Rattle.ev_base.specs.Terms.{Terms};
ghost use Rattle.reactor_model.specs.reactor_journal.specs.declared.entry.Entry.{Entry};
ghost use Rattle.reactor_core.specs.Rest.{WatchGoesOn};

use reactor_model::{Entry, Journal, Watch};

/// Shows an entry to the watch, and appends it. It takes no memory.
pub(crate) fn append<N, W: Watch<N>>(journal: &mut Journal<N>, watch: &mut W, entry: Entry<N>)
    requires { 1 ≤ journal.old.spare }
    ensures entries { journal.new.entries ≡ journal.old.entries ++ entry ∷ [] }
    ensures spare { journal.new.spare + 1 ≡ journal.old.spare }
    ensures watch { (t : Terms) (h : List (Entry N)) → W.stands t watch.old h
        → W.stands t watch.new (h ++ entry ∷ []) }
    ensures goes_on { WatchGoesOn W.faults W.is_broken W.whole watch.old watch.new }
{
    watch.saw(&entry);
    journal.append(entry);
}
