//! Sums of what is kept, which may be too large for a usize.

ghost use Rattle.std.specs.Prelude.{◌≡◌, ◌+◌, ◌-◌, ◌<◌, ◌≤◌, ◌^◌, IfErr, IfOk};
ghost use Rattle.mysql_connection_statements.specs.Statements.{bound as bound_size};

use mysql_executions::StatementParameters;
use std::alloc::AllocError;

/// What is kept of parameters whose long data has this size.
pub(crate) fn bound(parameters: &StatementParameters, sent: usize) -> u128
    ensures size { result ≡ bound_size parameters.now sent }
    ensures small { result < 2 ^ 66 }
{
    2 * parameters.types().len() as u128 + sent as u128
}

/// A sum of which one part changes.
pub(crate) fn changed_sum(sum: usize, before: u128, after: u128) -> u128
    requires { after < 2 ^ 68 }
    ensures size { result ≡ sum - before + after }
    ensures small { result < 2 ^ 69 }
{
    (sum as u128).saturating_sub(before) + after
}

/// A sum of which one part changes, where a usize holds it.
///
/// # Errors
/// - `AllocError` where the sum is too large.
pub(crate) fn with_part(sum: usize, before: u128, after: u128) -> Result<usize, AllocError>
    requires { after < 2 ^ 68 }
    ensures ok { IfOk result (λ made. made ≡ sum - before + after) }
    ensures err { IfErr result (λ _. 2 ^ 64 ≤ sum - before + after) }
{
    match usize::try_from(changed_sum(sum, before, after)) {
        Ok(made) => Ok(made),
        Err(_) => Err(AllocError),
    }
}
