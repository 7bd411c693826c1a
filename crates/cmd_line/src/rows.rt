//! Lines of words, and the commands that they call.
ghost use Rattle.cmd_line.specs.Rows.{AreFirstWords, AreGenerations, AreReplays, AreServes};

/// Some lines of words call these commands, and others call none. The function does nothing: its
/// contract is the law, which its proof computes line by line.
pub fn lines_call_commands()
    ensures first_words { AreFirstWords }
    ensures replays { AreReplays }
    ensures serves { AreServes }
    ensures generations { AreGenerations }
{}
