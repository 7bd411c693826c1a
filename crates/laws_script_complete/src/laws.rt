//! Laws of whole runs over a script. Each function has an empty body: what it says is its contract.

ghost use Rattle.laws_script_complete.specs.Complete.{AllAreAccepted, NoStepIsLeft};
ghost use Rattle.laws_script_complete.specs.Complete.{AllBytesAreTaken};

use laws_script_runs::{EventHandler, ServerNote};

/// A run that is over has accepted each connection of its script.
pub fn all_are_accepted<H: EventHandler<Note = ServerNote>>()
    ensures { AllAreAccepted H.means }
{}

/// A run that is over has left no group of its script, and no step but those of ends that were
/// closed or refused.
pub fn no_step_is_left<H: EventHandler<Note = ServerNote>>()
    ensures { NoStepIsLeft H.means }
{}

/// In a run that is over, each connection that was closed with `end`, `partial` or `stopped` has
/// taken all its bytes.
pub fn all_bytes_are_taken<H: EventHandler<Note = ServerNote>>()
    ensures { AllBytesAreTaken H.means }
{}
