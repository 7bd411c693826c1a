//! The settling of an upcall.
ghost use Rattle.reactor_model.specs.reactor_journal.specs.Past.{past_of};
ghost use Rattle.reactor_core.specs.Upcalls.{DoneFits};
ghost use Rattle.reactor_desk.specs.Desks.{DeskWith, FromDesk, KeepsMarks};
ghost use Rattle.reactor_desk.specs.Settling.{SettlesDesk};

use crate::Desk;
use ev_base::Net;
use reactor_core::{Done, Means, Settled};
use reactor_model::{EventHandler, Volumes, Watch};
use timer_queue::TimerQueue;

impl<
    H: EventHandler,
    M: Net<End = H::End>,
    Q: TimerQueue,
    W: Watch<H::Note>,
    V: Volumes<H::Note>,
> Desk<H, M, Q, W, V> {
    /// Settles an upcall that was made (`Core::settle`): its turn is recorded, its handler goes
    /// home or is closed, and its act is done. It takes no memory and cannot fail.
    pub fn settle(&mut self, done: Done<H>) -> Settled
        requires stands { DeskWith ⟦<Self as Means>⟧.m
            (λ q h. DoneFits H.means q.run (past_of h) done) self.old }
        ensures settles { FromDesk ⟦<Self as Means>⟧.m self.old (λ q F h.
            DoneFits H.means q.run (past_of h) done
            → SettlesDesk ⟦<Self as Means>⟧.m q F h done self.old self.new result) }
        ensures marks { KeepsMarks ⟦<Self as Means>⟧.m self.old self.new }
    {
        self.core.settle(done)
    }
}
