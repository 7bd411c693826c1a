//! Tests of single words, as the definitions have them.
ghost use Rattle.std.specs.Prelude.{◌≡◌};
ghost use Rattle.reactor_journal.specs.Past as P;

use ev_types::{Kind, Mask, Upcall};

/// Whether the mask has the kind.
pub fn has_kind(mask: Mask, kind: Kind) -> bool
    ensures { result ≡ P.has_kind mask kind }
{
    match kind {
        Kind::Read => mask.read,
        Kind::Write => mask.write,
        Kind::Except => mask.except,
    }
}

/// The upcall that a report of the kind asks for.
pub fn upcall_of(kind: Kind) -> Upcall
    ensures { result ≡ P.upcall_of kind }
{
    match kind {
        Kind::Read => Upcall::Input,
        Kind::Write => Upcall::Output,
        Kind::Except => Upcall::Except,
    }
}

/// Whether the upcall is a timeout of the timer.
pub fn is_timeout_of(timer: u64, upcall: Upcall) -> bool
    ensures { result ≡ P.is_timeout_of timer upcall }
{
    match upcall {
        Upcall::Timeout { timer: other } => other == timer,
        _ => false,
    }
}
