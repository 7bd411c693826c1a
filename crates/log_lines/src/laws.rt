//! The laws of texts.
ghost use Rattle.log_lines.specs.Lengths.{TextsAreShort};

/// The text of a record is at most 59 bytes longer than four times its message. The function does
/// nothing: its contract is the law.
pub fn texts_are_short()
    ensures { TextsAreShort }
{}
