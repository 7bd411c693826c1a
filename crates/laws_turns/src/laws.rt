//! Laws of every legal journal. Each function has an empty body: what it says is its contract, over
//! the definitions alone.

ghost use Rattle.laws_turns.specs.Laws.{NoCloseWhileAlive, ClosesLast, OpensOnce, MomentIsNow};

/// While a handle is alive its handler has never answered Close.
pub fn no_close_while_alive<N>()
    ensures { NoCloseWhileAlive N }
{}

/// If a handler ended its own life, Close is the last answer that it gave.
pub fn closed_itself_last<N>()
    ensures { ClosesLast N }
{}

/// The open events of a journal are listed once each.
pub fn opens_once<N>()
    ensures { OpensOnce N }
{}

/// What a journal sums up to has the moment of its last wait.
pub fn moment_is_now<N>()
    ensures { MomentIsNow N }
{}
