//! Standard input, whose end ends the waits of a net.
ghost use Rattle.std.specs.Prelude.{◌≡◌, true, false};
ghost use Rattle.std.specs.List.{list_any};
ghost use Rattle.mio.specs.Events.{items};
ghost use Rattle.demux_mio.specs.Reported.{is_of_control};
ghost use Rattle.demux_mio.specs.Controls.{EndsAtOnce, is_end};

use crate::socket::read_once;
use ev_base::Got;
use mio::unix::SourceFd;
use mio::{Events, Interest, Registry, Token};
use std::io;
use std::io::{ErrorKind, Stdin};
use std::os::fd::RawFd;

/// The token of standard input.
const CONTROL: Token = Token(usize::MAX - 1);

/// The descriptor of standard input.
const DESCRIPTOR: RawFd = 0;

/// How many bytes are passed over at once.
const PIECE: usize = 512;

/// Standard input, of which only the end counts.
#[derive(Drop)]
pub(crate) struct Control {
    input: Stdin,
    ended: bool,
}

impl Control {
    /// Has standard input watched.
    pub(crate) fn watch(registry: &Registry, input: Stdin) -> io::Result<Control> {
        let watched = registry.register(&mut SourceFd(&DESCRIPTOR), CONTROL, Interest::READABLE);
        let ended = ends_at_once(watched)?;
        Ok(Control { input, ended })
    }

    /// Whether its end was found.
    pub(crate) fn has_ended(&self) -> bool
        ensures { result ≡ self.now.ended }
    {
        self.ended
    }

    /// Passes over bytes, if the events say that there are some, or finds the end. It makes one
    /// read, which does not wait then, and asks for a new event, so that no byte is forgotten.
    pub(crate) fn take(&mut self, registry: &Registry, events: &Events)
        ensures stays { self.old.ended ≡ true → self.new.ended ≡ true }
        ensures unreported { list_any is_of_control (items events.now) ≡ false
            → self.new ≡ self.old }
    {
        if self.ended || !is_reported(events) {
            return;
        }
        let got = read_once(&mut self.input, &mut [0; PIECE]);
        let watched = registry.reregister(&mut SourceFd(&DESCRIPTOR), CONTROL, Interest::READABLE);
        self.ended = is_end(got) || watched.is_err();
    }
}

// Whether one of the events is of standard input.
fn is_reported(events: &Events) -> bool
    ensures { result ≡ list_any is_of_control (items events.now) }
{
    events.iter().any(|event| event.token().0 == CONTROL.0)
}

// Whether it is at its end, by what a read came to. One that fails gives nothing more.
fn is_end(got: Got) -> bool
    ensures { result ≡ is_end got }
{
    match got {
        Got::Bytes(_) | Got::Pause => false,
        Got::Over | Got::Failed => true,
    }
}

// Whether it is at its end from the start, by what the system says when it is to be watched. A
// file cannot be: nobody else can say when more will come.
fn ends_at_once(watched: io::Result<()>) -> io::Result<bool>
    ensures { EndsAtOnce watched result }
{
    match watched {
        Ok(()) => Ok(false),
        Err(error) if error.kind() == ErrorKind::PermissionDenied => Ok(true),
        Err(error) => Err(error),
    }
}
