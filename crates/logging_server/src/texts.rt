//! The commands that have no reactor: `display` and `audit`.
ghost use Rattle.logging_server.specs.Commands.{HasAudited, HasDisplayed};

use crate::Served;
use crate::statuses::{DISPLAY_LIMIT, Ending, TEXT_LIMIT};
use cmd_audit::{Audited, audit};
use cmd_display::{Displayed, display};
use ev_base::{Sink, Source};
use log_handler::ServerNote;
use reactor_model::{Journal, Volumes};
use std::alloc::Global;
use std::sync::Wait;
use std::thread::Threads;

/// Writes the records of the input as text.
pub(crate) fn display_records<
    R: Threads + Wait + Copy + Send + 'static,
    M,
    S: Source,
    K: Sink,
    V: Volumes<ServerNote>,
>(rt: &R, alloc: Global, input: S, output: K, volumes: V) -> Served<K, S, M, V>
    ensures { HasDisplayed S.facts K.facts V.facts input output volumes result }
{
    let Displayed { end, input, output } = display(rt, alloc, input, output, DISPLAY_LIMIT);
    let status = end.status();
    Served {
        status: status.code(),
        journal: Journal::new(alloc),
        first: 0,
        input,
        output,
        net: None,
        volumes,
        at: status.number(),
    }
}

/// Checks the journal whose text the input is.
pub(crate) fn audit_journal<M, S: Source, K: Sink, V: Volumes<ServerNote>>(
    alloc: Global,
    input: S,
    output: K,
    volumes: V,
) -> Served<K, S, M, V>
    ensures { HasAudited S.facts K.facts V.facts input output volumes result }
{
    let Audited { end, input, output } = audit(alloc, input, output, TEXT_LIMIT);
    let status = end.status();
    Served {
        status: status.code(),
        journal: Journal::new(alloc),
        first: 0,
        input,
        output,
        net: None,
        volumes,
        at: status.number(),
    }
}
