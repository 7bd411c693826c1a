//! How a run over a generated script is summed up, once it ended.
ghost use Rattle.std.specs.Prelude.{◌≡◌};
ghost use Rattle.cmd_replay.specs.Runs.{FailsNet};
ghost use Rattle.cmd_gen.specs.Summing.{WritesSummary};

use crate::GenerateEnd;
use cmd_replay::{Ending, Entry, ServerNote};
use ev_base::Sink;
use run_summary::Summary;

/// Writes the summary of a run that ended so, left these entries and handed so many over, if it
/// is done and handed none over. Else nothing is written.
pub(crate) fn sum_up<K: Sink>(
    ending: Ending,
    first: u64,
    entries: &[Entry<ServerNote>],
    output: K,
) -> (GenerateEnd, K)
    requires net { FailsNet ending → ⊥ }
    requires unnoticed { ending ≡ Ending.Notified → ⊥ }
    ensures { WritesSummary ending first (K.facts output) entries.now result.0 (K.facts result.1) }
{
    match ending {
        Ending::Over => sum_up_held(first, entries, output),
        Ending::VolumeFault => (GenerateEnd::VolumeFault, output),
        Ending::NoMemory | Ending::Broken => (GenerateEnd::NoMemory, output),
        Ending::NotAttached | Ending::NetFault => {
            unreachable!("a net that plays a script fails in no call")
        }
        Ending::Notified => unreachable!("no notice was asked for"),
    }
}

/// Writes the summary of these entries, if none was handed over before them.
fn sum_up_held<K: Sink>(first: u64, entries: &[Entry<ServerNote>], output: K) -> (GenerateEnd, K)
    ensures { WritesSummary Ending.Over first (K.facts output) entries.now result.0
        (K.facts result.1) }
{
    if first > 0 {
        return (GenerateEnd::NoMemory, output);
    }
    match Summary::of(entries).write(output) {
        (output, true) => (GenerateEnd::Done, output),
        (output, false) => (GenerateEnd::WriteFault, output),
    }
}
