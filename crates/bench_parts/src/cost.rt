//! What one of many costs.

/// Nanoseconds for each of so many, or, if it is not timed, how many there were.
pub fn cost(timed: bool, made: u64, nanos: u128) -> u128 {
    if timed && made > 0 {
        nanos / made as u128
    } else {
        made as u128
    }
}
