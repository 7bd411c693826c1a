//! An upcall on its way: out to its event handler, and back.
ghost use Rattle.std.specs.Prelude.{◌≡◌, List};
ghost use Rattle.ev_base.specs.Terms.{Terms};
ghost use Rattle.reactor_model.specs.reactor_journal.specs.declared.entry.Entry.{Entry};
ghost use Rattle.reactor_core.specs.Upcalls.{JobFits, DoneFits, IsRunOf};
ghost use Rattle.reactor_core.specs.Views.{job_event, job_handle, job_upcall, job_moment};
ghost use Rattle.reactor_core.specs.Views.{done_event, done_handle, done_answer, done_note};

use ev_base::{Answer, Handle, Upcall};
use handler_repo::Placed;
use reactor_model::{EventHandler, Turn};

/// An upcall that is to be made. It owns the event handler, so no other thread can call that
/// handler meanwhile.
pub struct Job<H: EventHandler> {
    pub(crate) event: u64,
    pub(crate) handle: Handle,
    pub(crate) upcall: Upcall,
    pub(crate) now: u64,
    pub(crate) handler: Placed<H>,
}

/// An upcall that was made. It is to be given to `Core::settle`.
pub struct Done<H: EventHandler> {
    pub(crate) event: u64,
    pub(crate) handle: Handle,
    pub(crate) upcall: Upcall,
    pub(crate) now: u64,
    pub(crate) handler: Placed<H>,
    pub(crate) turn: Turn<H>,
}

impl<H: EventHandler> Job<H> {
    /// The number of its event.
    pub fn event(&self) -> u64
        ensures { result ≡ job_event self.entry.now }
    {
        self.event
    }

    /// The handle of its event.
    pub fn handle(&self) -> Handle
        ensures { result ≡ job_handle self.entry.now }
    {
        self.handle
    }

    /// The upcall that it makes.
    pub fn upcall(&self) -> Upcall
        ensures { result ≡ job_upcall self.entry.now }
    {
        self.upcall
    }

    /// The moment in milliseconds at which it was started.
    pub fn now(&self) -> u64
        ensures { result ≡ job_moment self.entry.now }
    {
        self.now
    }

    /// Makes the upcall at the moment at which it was started (C++NPv2 chapter 3, `handle_input`
    /// and its fellows). Whatever journal the job fits, what comes back fits it too: the handler
    /// has had one turn more, and its act is one that the turn may carry.
    #[inline(always)]
    pub fn run(self) -> Done<H>
        ensures fits { (t : Terms) (past : List (Entry H.Note)) → JobFits H.means t past self
            → DoneFits H.means t past result }
        ensures same { IsRunOf self result }
    {
        let Job {
            event,
            handle,
            upcall,
            now,
            handler,
        } = self;
        let mut handler = handler;
        let turn = handler.get_mut().upcall(upcall, now);
        Done {
            event,
            handle,
            upcall,
            now,
            handler,
            turn,
        }
    }
}

impl<H: EventHandler> Done<H> {
    /// The number of its event.
    pub fn event(&self) -> u64
        ensures { result ≡ done_event self.entry.now }
    {
        self.event
    }

    /// The handle of its event.
    pub fn handle(&self) -> Handle
        ensures { result ≡ done_handle self.entry.now }
    {
        self.handle
    }

    /// What the handler answered.
    pub fn answer(&self) -> Answer
        ensures { result ≡ done_answer self.entry.now }
    {
        self.turn.answer
    }

    /// What the handler noted.
    pub fn note(&self) -> &H::Note
        ensures { result.now ≡ done_note self.entry.now }
    {
        &self.turn.note
    }
}
