//! Assertions of rows that say what was found and where. They are functions, so that what a macro
//! writes for them is proved once and not in each row.
use std::fmt::{Debug, Display};
use std::process::Abort;

/// Panics if what was found is not what is wanted, and says both.
pub fn assert_same<T: PartialEq + Debug + Copy>(rt: &impl Abort, found: T, wanted: T) {
    assert!(rt; found == wanted, "{found:?} in place of {wanted:?}");
}

/// Panics if what was found in a row is not what is wanted, and says in which.
pub fn assert_same_in<R: Display + Copy, T: PartialEq + Debug + Copy>(
    rt: &impl Abort,
    row: R,
    found: T,
    wanted: T,
) {
    assert!(rt;
        found == wanted,
        "row {row}: {found:?} in place of {wanted:?}"
    );
}

/// Panics if a row is not as it is to be, and says which.
pub fn assert_in<R: Display + Copy>(rt: &impl Abort, row: R, is_well: bool) {
    assert!(rt; is_well, "row {row}");
}
