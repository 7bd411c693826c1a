//! The law of the words. The function has a law as its contract and does nothing.

ghost use Rattle.program_words.specs.Laws as L;

/// A command without options of the program's own sees all its words.
pub fn others_keep_all()
    ensures { L.OthersKeepAll }
{}
