//! Types that an execution lacks.

ghost use Rattle.std.specs.Prelude.{◌≡◌, IfErr, IfOk, map, true};
ghost use Rattle.mysql_connection_recoding.specs.Recoding.{lacks_types, nameless, types_there};
ghost use Rattle.mysql_executions.specs.Views.{types_of};

use mysql_bytes::ByteString;
use mysql_executions::{BoundType, ParameterType};
use std::alloc::{AllocError, Global};

/// A type without a name.
fn nameless(alloc: Global, parameter_type: ParameterType) -> BoundType
    ensures { result ≡ nameless parameter_type }
{
    BoundType {
        parameter_type,
        name: ByteString::from_vec(Vec::new(alloc)),
    }
}

/// Types as an execution carries them, without names.
fn nameless_types(alloc: Global, types: &[ParameterType]) -> Result<Vec<BoundType>, AllocError>
    ensures { IfOk result (λ made. made.items ≡ map nameless types.now) }
{
    types
        .iter()
        .map(|kind| nameless(alloc, *kind))
        .collect(alloc)
}

/// The types of an execution; where it carries none, those that are in force.
///
/// # Errors
/// - `AllocError` out of memory, where it carries none and any is in force.
pub fn types_there(
    alloc: Global,
    in_force: &[ParameterType],
    own: Option<Vec<BoundType>>,
) -> Result<Option<Vec<BoundType>>, AllocError>
    ensures ok { IfOk result (λ types. types_of types ≡ types_there in_force.now (types_of own)) }
    ensures err { IfErr result (λ e. lacks_types in_force.now (types_of own) ≡ true) }
{
    match own {
        Some(own) => Ok(Some(own)),
        None if in_force.is_empty() => Ok(None),
        None => Ok(Some(nameless_types(alloc, in_force)?)),
    }
}
