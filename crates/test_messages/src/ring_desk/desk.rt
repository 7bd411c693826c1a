// The desk, and one posting's way into its journal.
ghost use Rattle.std.specs.Prelude.{◌≡◌, ◌++◌, [], ◌∷◌, None, true, false};
ghost use Rattle.leader_token.specs.Words.{id_of as token_id, token_of, view_of};
ghost use Rattle.notify_ring.specs.Words.{id_of as ring_id, drainer_ring, drainer_view};
ghost use Rattle.notify_ring.specs.declared.posting.Posting.{Posting as PostingOf};
ghost use Rattle.test_messages.specs.Desks.{Adds};

use crate::ring_desk::terms::Terms;
use leader_token::{Kept, Pass, Token};
use notify_ring::{Drainer, Posting, Ring};
use std::sync::Wait;

/// The postings taken so far, and what takes them.
#[derive(Drop)]
pub struct Desk {
    pub journal: Vec<Posting>,
    pub drainer: Drainer,
}

// It stands for its journal, which is what its drainer took from the terms' ring.
impl Kept for Desk {
    type Entry = Posting;

    type Terms = Terms;

    ghost use Rattle.std.specs.Prelude.{refl};
    ghost use Rattle.std.proofs.Math.Nat.{le_of_sub-eq-zero};
    ghost use Rattle.test_messages.specs.Desks.{DeskStands, no_events, no_marks, open_terms};

    ghost stands = { λ terms first desk list. DeskStands terms desk list };

    ghost opens = { no_events };

    ghost marks = { no_marks };

    ghost blank = { open_terms };

    ghost once = { λ terms first desk list stands event. le_of_sub-eq-zero refl };

    ghost equally_many = { λ one other. refl };
}

impl Desk {
    // What the next gate has goes into the journal.
    fn drain(&mut self, ring: &Ring) -> bool
        requires ring { drainer_ring self.old.drainer ≡ ring_id ring.now }
        ensures ring { drainer_ring self.new.drainer ≡ drainer_ring self.old.drainer }
        ensures yes { result ≡ true → (x : PostingOf) × (self.new.journal.items
            ≡ self.old.journal.items ++ x ∷ [])
            × ((drainer_view self.new.drainer).got
            ≡ (drainer_view self.old.drainer).got ++ x ∷ []) }
        ensures no { result ≡ false → (self.new.journal.items ≡ self.old.journal.items)
            × ((drainer_view self.new.drainer).got ≡ (drainer_view self.old.drainer).got) }
    {
        if self.journal.reserve(1).is_err() {
            return false;
        }
        match ring.next(&mut self.drainer) {
            Some(posting) => {
                self.journal.push_reserved(posting);
                true
            }
            None => false,
        }
    }
}

/// Drains one posting under the token, if there is one.
pub fn drain_one<R: Wait>(rt: &R, token: &Token<Desk>, ring: &Ring, pass: &mut Pass<Desk>) -> bool
    requires token { token_of pass.old ≡ token_id token.now }
    requires ring { (view_of pass.old).terms.ring ≡ ring_id ring.now }
    requires free { ((view_of pass.old).base ≡ None) × ((view_of pass.old).mine ≡ None) }
    ensures token { token_of pass.new ≡ token_of pass.old }
    ensures yes { result ≡ true → Adds (view_of pass.old).seen (view_of pass.new).seen }
{
    let mut held = token.get(rt, pass);
    let drained = held.value().drain(ring);
    token.put(pass, held);
    drained
}
