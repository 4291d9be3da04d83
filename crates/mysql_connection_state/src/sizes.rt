//! What is kept, in bytes.

ghost use Rattle.std.specs.Prelude.{◌≡◌, ◌+◌, IfOk};
ghost use Rattle.mysql_connection_statements.specs.Statements.{counted};

use std::alloc::AllocError;

/// A sum, where it fits: no memory has room for more.
pub fn sum(a: usize, b: usize) -> Result<usize, AllocError>
    ensures { IfOk result (λ sum. sum ≡ a + b) }
{
    match a.checked_add(b) {
        Some(sum) => Ok(sum),
        None => Err(AllocError),
    }
}

/// What a payload counts of which something is kept: no payload is so long that it doesn't fit.
pub fn counted_size(payload: &[u8]) -> usize
    ensures { result ≡ counted payload.now }
{
    4 + payload.len()
}
