//! What works on a connection once it is made.
ghost use Rattle.std.specs.Prelude.{◌≡◌, ◌≢◌, false, List, []};
ghost use Rattle.ev_base.specs.Terms.{Terms, KeepsOn};
ghost use Rattle.ev_base.specs.End.{EndFinishes};
ghost use Rattle.reactor_model.specs.reactor_journal.specs.Event.{Item};
ghost use Rattle.reactor_model.specs.Handling.{NoClose};
ghost use Rattle.reactor_model.specs.Turns.{IsTimeout};
ghost use Rattle.connector.specs.Serving.{IsSameDial, AddsTurn};

use ev_base::{Answer, DialEnd, Upcall};

/// A service: it has the upcalls of a connection that this side made. It says by a relation what
/// the turns that it had mean for its end.
pub trait Service {
    /// The end that it works on.
    type End: DialEnd;

    /// What it notes of a turn.
    type Note;

    /// It had exactly these turns, and its end tells what they did.
    ghost serves: { Terms → Self → Self.End → List (Item Self.Note) → Type 0 };

    /// Makes one turn on the end, at a moment in milliseconds. It doesn't ask whether the
    /// connection is made, and never answers a timeout by Again.
    fn live(&mut self, end: &mut Self::End, up: Upcall, now: u64) -> (Answer, Self::Note)
        requires { (Self.End.tells end.old).listener ≡ false }
        ensures adds { (t : Terms) → AddsTurn (serves t self.old end.old) (Self.End.keeps t end.old)
            up now result (serves t self.new end.new) }
        ensures kept { KeepsOn Self.End.keeps end.old end.new }
        ensures same { IsSameDial (Self.End.tells end.old) (Self.End.tells end.new) }
        ensures timeout { IsTimeout up → result.0 ≢ Answer.Again };

    /// No question whether the connection is made changes what it stands for.
    ghost finished: { (t : Terms) (service : Self) (old new : Self.End) (answer : _)
        (had : List (Item Self.Note)) → EndFinishes (Self.End.tells old) answer (Self.End.tells new)
        → Self.End.keeps t new → serves t service old had → serves t service new had };

    /// And no attach of its end does.
    ghost attached: { (t : Terms) (service : Self) (old new : Self.End)
        (had : List (Item Self.Note)) → Self.End.tells new ≡ Self.End.tells old
        → Self.End.keeps t new → serves t service old had → serves t service new had };
}
