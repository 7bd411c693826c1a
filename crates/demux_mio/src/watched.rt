//! A watched socket, as its net sees it.
ghost use Rattle.std.specs.Prelude.{◌≡◌, true, false};
ghost use Rattle.ev_base.specs.Net.{mask_has};

use crate::readiness::Signs;
use ev_base::{Kind, Mask};
use mio::event::Event;

/// A watched socket: the kinds of report that its handle wants, those that the next wait is to
/// give, whether it is a listener, and what it is ready for.
#[derive(Drop)]
pub(crate) struct Watched {
    pub(crate) mask: Mask,
    pub(crate) owed: Mask,
    pub(crate) listens: bool,
    pub(crate) signs: Signs,
}

/// Whether a kind of report is in a mask.
pub(crate) fn mask_has(mask: Mask, kind: Kind) -> bool
    ensures { result ≡ mask_has mask kind }
{
    match kind {
        Kind::Read => mask.read,
        Kind::Write => mask.write,
        Kind::Except => mask.except,
    }
}

// A mask in which a kind is set.
fn with_kind(mask: Mask, kind: Kind, set: bool) -> Mask {
    match kind {
        Kind::Read => Mask { read: set, ..mask },
        Kind::Write => Mask { write: set, ..mask },
        Kind::Except => Mask {
            except: set,
            ..mask
        },
    }
}

impl Watched {
    /// Notes what an event says: a socket that is closed or failed is ready for every call. Tells
    /// which of the kinds that it says are wanted.
    pub(crate) fn note(&self, event: &Event) -> Mask
        ensures read { result.read ≡ true → self.now.mask.read ≡ true }
        ensures write { result.write ≡ true → self.now.mask.write ≡ true }
    {
        let read = event.is_readable() || event.is_read_closed() || event.is_error();
        let write = event.is_writable() || event.is_write_closed() || event.is_error();
        if read {
            self.signs.note(Kind::Read);
        }
        if write {
            self.signs.note(Kind::Write);
        }
        Mask {
            read: read && self.mask.read,
            write: write && self.mask.write,
            except: false,
        }
    }

    /// Sets the mask, and tells which kinds it has now and had not that the socket is ready for.
    pub(crate) fn set_mask(&mut self, mask: Mask) -> Mask
        ensures { self.new.mask ≡ mask }
    {
        let gained = Mask {
            read: mask.read && !self.mask.read && self.signs.has(Kind::Read),
            write: mask.write && !self.mask.write && self.signs.has(Kind::Write),
            except: false,
        };
        self.mask = mask;
        gained
    }

    /// Notes that a report of this kind is owed, and tells whether it was not before.
    pub(crate) fn owe(&mut self, kind: Kind) -> bool
        ensures { self.new.mask ≡ self.old.mask }
    {
        let fresh = !mask_has(self.owed, kind);
        self.owed = with_kind(self.owed, kind, true);
        fresh
    }

    /// Takes back that a report of this kind is owed. Tells whether it is to be given: the kind is
    /// wanted, and the socket is ready for it still.
    pub(crate) fn settle(&mut self, kind: Kind) -> bool
        ensures mask { self.new.mask ≡ self.old.mask }
        ensures wanted { result ≡ true → mask_has self.old.mask kind ≡ true }
        ensures never { kind ≡ Kind.Except → result ≡ false }
    {
        self.owed = with_kind(self.owed, kind, false);
        mask_has(self.mask, kind) && self.signs.has(kind)
    }
}
