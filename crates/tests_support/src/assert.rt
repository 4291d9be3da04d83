//! What is found beside what is wanted.

ghost use Rattle.std.specs.Prelude.{◌≡◌, true};

use std::fmt::Debug;

/// Ends a test that finds something else than it wants.
pub trait Assert {
    /// Goes on where this is so, and else ends the test.
    fn holds(&self, is_so: bool)
        ensures { is_so ≡ true };
}

/// Asserts that a value is the wanted one.
pub fn assert_equal<T: PartialEq + Debug + Drop>(assert: &impl Assert, found: T, wanted: T) {
    assert.holds(found == wanted);
}

/// Asserts that a value that is only lent is the wanted one.
pub fn assert_same<T: PartialEq + Debug>(assert: &impl Assert, found: &T, wanted: &T) {
    assert.holds(*found == *wanted);
}

/// Asserts that bytes are the wanted ones.
pub fn assert_bytes(assert: &impl Assert, found: &[u8], wanted: &[u8]) {
    assert.holds(found == wanted);
}

/// What a call made that needs memory, or the same call once more.
pub fn once_more<T: Drop, E: Drop>(
    assert: &impl Assert,
    first: Result<T, E>,
    second: Result<T, E>,
) -> T {
    match first {
        Ok(value) => value,
        Err(_) => match second {
            Ok(value) => value,
            Err(_) => {
                assert.holds(false);
                unreachable!()
            }
        },
    }
}

/// Asserts what a call answered, at its second try where memory was refused.
///
/// `refused` is what stands for refused memory, and `second` what the same call answered once more.
pub fn assert_answer<T: PartialEq + Debug + Drop>(
    assert: &impl Assert,
    first: T,
    second: T,
    refused: T,
    wanted: T,
) {
    let is_answer = first == wanted || (first == refused && second == wanted);
    assert.holds(is_answer);
}
