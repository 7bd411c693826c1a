//! Laws of serial journals. Each function has an empty body: what it says is its contract.

ghost use Rattle.laws_script_serial.specs.Laws.{SerialIsOne};

/// Two serial journals of one script, with as much room and the same idle time, are equal, unless a
/// connection was closed for want of memory.
pub fn serial_is_one()
    ensures { SerialIsOne }
{}
