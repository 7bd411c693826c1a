// A desk under a token: its notes begin and end events, and it counts its faults.
ghost use Rattle.std.specs.Prelude.{◌≡◌, ◌++◌, ◌≤◌, ◌+◌, [], ◌∷◌, None, Some, IfSome, IfNone, true};
ghost use Rattle.std.specs.Prelude.{false, length};
ghost use Rattle.leader_token.specs.Words.{id_of, token_of, view_of};
ghost use Rattle.test_token.specs.Passes.{HasKinOf, IsFree};
ghost use Rattle.test_token.specs.Events.{Adds};

use leader_token::{Kept, Pass, Token};
use std::sync::Wait;

/// An event begins, with the number of this note, or ends.
#[derive(Clone, Copy, Drop)]
pub enum Note {
    Begun(u64),
    Ended(u64),
}

/// The notes in the order in which they came, and how often there was no memory for one.
#[derive(Drop)]
pub struct Desk {
    pub notes: Vec<Note>,
    pub faults: u64,
}

impl Kept for Desk {
    type Entry = Note;

    type Terms = ();

    ghost use Rattle.std.specs.Prelude.{refl};
    ghost use Rattle.test_token.specs.Events.{DeskStands, desk_opens, desk_marks};

    ghost stands = { λ terms first desk list. DeskStands desk list };

    ghost opens = { desk_opens };

    ghost marks = { desk_marks };

    ghost blank = { tt };

    ghost once = { λ terms first desk list stands. stands.once };

    ghost equally_many = { λ one other. refl };
}

fn push(desk: &mut Desk, note: Note) -> bool
    ensures yes { result ≡ true → (desk.new.notes.items ≡ desk.old.notes.items ++ note ∷ [])
        × (desk.new.faults ≡ desk.old.faults) }
    ensures no { result ≡ false → (desk.new.notes.items ≡ desk.old.notes.items)
        × (desk.old.faults ≤ desk.new.faults) }
{
    if desk.notes.push(note).is_ok() {
        return true;
    }
    desk.faults = desk.faults.saturating_add(1);
    false
}

/// Begins an event, which is then the pass's own, and gives its number: how many notes stood before
/// it. For want of memory it counts a fault.
pub fn begin<R: Wait>(rt: &R, token: &Token<Desk>, pass: &mut Pass<Desk>) -> Option<u64>
    requires token { token_of pass.old ≡ id_of token.now }
    requires free { IsFree (view_of pass.old) }
    ensures token { token_of pass.new ≡ token_of pass.old }
    ensures free { (view_of pass.new).base ≡ None }
    ensures kin { HasKinOf (view_of pass.old) (view_of pass.new) }
    ensures mine { (view_of pass.new).mine ≡ result }
    ensures begun { IfSome result (λ event. Adds (Note.Begun event) (view_of pass.old).seen
        (view_of pass.new).seen × (length (view_of pass.new).seen ≡ event + 1)) }
{
    let mut held = token.get(rt, pass);
    let event = held.value().notes.as_slice().len() as u64;
    let begun = push(held.value(), Note::Begun(event));
    if begun {
        token.put(pass, held);
        Some(event)
    } else {
        token.put(pass, held);
        None
    }
}

/// Ends the pass's own event, or counts a fault for want of memory.
pub fn settle<R: Wait>(rt: &R, token: &Token<Desk>, pass: &mut Pass<Desk>, event: u64) -> bool
    requires token { token_of pass.old ≡ id_of token.now }
    requires own { ((view_of pass.old).base ≡ None) × ((view_of pass.old).mine ≡ Some event) }
    ensures token { token_of pass.new ≡ token_of pass.old }
    ensures free { (view_of pass.new).base ≡ None }
    ensures kin { HasKinOf (view_of pass.old) (view_of pass.new) }
    ensures yes { result ≡ true → ((view_of pass.new).mine ≡ None)
        × Adds (Note.Ended event) (view_of pass.old).seen (view_of pass.new).seen }
    ensures no { result ≡ false → (view_of pass.new).mine ≡ Some event }
{
    let mut held = token.get(rt, pass);
    let ended = push(held.value(), Note::Ended(event));
    if ended {
        token.put(pass, held);
    } else {
        token.put(pass, held);
    }
    ended
}
