//! The law of the two commands. The function has an empty body: what it says is its contract, over
//! what the contracts of both commands say.

ghost use Rattle.logging_server.specs.Laws.{ReplayedJournalsPass};

use ev_base::{PeerEnd, Sink};
use log_handler::ServerNote;
use reactor_model::Volumes;
use script_net::ScriptEnd;

/// The text that a replay writes in the form of a journal, if it ended as it was asked to and
/// no notice was asked for, is found legal with as many entries as the run has, unless a read or a
/// write fails, it is longer than may be read, or there is no memory.
pub fn replayed_journals_pass<K: Sink, V: Volumes<ServerNote>>()
    ensures { ReplayedJournalsPass ⟦<ScriptEnd as PeerEnd>⟧ K.facts V.facts }
{}
