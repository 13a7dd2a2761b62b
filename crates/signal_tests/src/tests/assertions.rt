//! Equality as a call: it is proved several times faster than the text of `assert_eq!` in each test.
use std::fmt::Debug;
use std::process::Abort;

/// Ends the test, with both values, unless they are equal. In a loop over a table both are pairs with the case first.
pub(crate) fn assert_equal<R: Abort, T: PartialEq + Debug>(rt: &R, got: &T, wanted: &T) {
    assert_eq!(*rt; *got, *wanted);
}
