//! The laws of the command's statuses. The function here has a law as its contract and does
//! nothing.
ghost use Rattle.cmd_forward.specs.Laws.{SoundRunsAreDone};

/// If the words call the command, no count of faults rose, the connection was made in time, the
/// net could report to the end and the input is clean and not too long, all is sent: the status is
/// 0, or 6 for want of memory.
pub fn sound_runs_are_done<M, S, K, E>()
    ensures { SoundRunsAreDone M S K E }
{}
