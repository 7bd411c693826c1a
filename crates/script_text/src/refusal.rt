//! Why a text was refused.
ghost use Rattle.std.specs.Prelude.{◌≡◌};
ghost use Rattle.script_text.specs.declared.refusal.ScriptRefused.TheVariants.{
  NoMemory as RefusedForMemory,
};

use std::error::Error;
use std::fmt;

/// Why a text was refused.
#[derive(Clone, Copy, PartialEq, Eq, Debug)]
pub enum ScriptRefused {
    /// The line of this number, from 1, is the first that is none of a script or may not stand
    /// where it stands.
    BadScript {
        /// The number of the line.
        line: u64,
    },
    /// There was no memory.
    NoMemory,
}

impl fmt::Display for ScriptRefused {
    fn fmt<W: fmt::Write>(&self, f: &mut fmt::Formatter<W>) -> fmt::Result {
        match self {
            ScriptRefused::BadScript { line } => write!(f, "line {line} may not stand in a script"),
            ScriptRefused::NoMemory => write!(f, "out of memory"),
        }
    }
}

impl Error for ScriptRefused {}

impl From<ev_base::NoMemory> for ScriptRefused {
    ghost from_gives = { λ _ e. e ≡ RefusedForMemory };

    fn from(_: ev_base::NoMemory) -> ScriptRefused {
        ScriptRefused::NoMemory
    }
}
