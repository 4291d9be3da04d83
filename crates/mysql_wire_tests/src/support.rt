//! How these tests assert.

ghost use Rattle.std.specs.Prelude.{◌≡◌, true};

use std::process::Abort;
use tests_support::Assert;

/// Ends a test by an assertion.
#[derive(Drop)]
pub struct Asserting<'a, R>(pub &'a R);

impl<R: Abort> Assert for Asserting<'_, R> {
    fn holds(&self, is_so: bool)
        ensures { is_so ≡ true }
    {
        assert!(self.0; is_so);
    }
}
