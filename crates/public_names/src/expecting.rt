//! What tests expect.
use std::fmt::Debug;
use std::process::Abort;

/// Fails the test where these differ. A call ends in one way and an assertion in two, of which each
/// is proved again: so tests call this.
pub fn expect<T: PartialEq + Debug + Copy>(rt: &impl Abort, found: T, wanted: T) {
    assert_eq!(rt; found, wanted);
}
