//! The laws of what is given. Each function here has a law as its contract and does nothing.

ghost use Rattle.ace7_input.specs.Laws as L;

/// A record of version 2, whether its order octet is one of version 1 or says so, is given as it
/// was meant.
pub fn record_is_widened()
    ensures { L.RecordIsWidened }
{}

/// What begins with no order octet is given as it is.
pub fn other_is_left()
    ensures { L.OtherIsLeft }
{}

/// As many bytes are given as the client sent.
pub fn has_same_length()
    ensures { L.HasSameLength }
{}
