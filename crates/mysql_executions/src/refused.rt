//! What a refusal leaves of types.

ghost use Rattle.std.specs.Prelude.{◌≡◌, length};
ghost use Rattle.mysql_executions.specs.After.{drops_data as has_dropped_data, is_disputed as is_disputed_type};
ghost use Rattle.mysql_executions.specs.After.{refused_types, undisputed as undisputed_of};

use crate::types::ParameterType;
use mysql_const::ColumnType;

/// A command that was answered by an error.
#[derive(Clone, Copy, Debug, PartialEq, Eq)]
pub enum Refused {
    /// An execution.
    Execution,
    /// A bulk execution, by its flags as they were sent.
    Bulk(u16),
}

/// Whether only some servers take a type.
fn is_disputed(column_type: ColumnType) -> bool
    ensures { result ≡ is_disputed_type column_type }
{
    matches!(
        column_type,
        ColumnType::MYSQL_TYPE_NEWDATE
            | ColumnType::MYSQL_TYPE_TIMESTAMP2
            | ColumnType::MYSQL_TYPE_DATETIME2
            | ColumnType::MYSQL_TYPE_TIME2
            | ColumnType::MYSQL_TYPE_TYPED_ARRAY
            | ColumnType::MYSQL_TYPE_VECTOR
            | ColumnType::MYSQL_TYPE_UNKNOWN
            | ColumnType::MYSQL_TYPE_JSON
    )
}

/// How many of the first types each server takes.
fn undisputed(types: &[ParameterType]) -> usize
    ensures { result ≡ undisputed_of types.now }
{
    for (place, kind) in types.iter().enumerate() {
        if is_disputed(kind.column_type) {
            return place;
        }
    }
    types.len()
}

/// Takes from types those that a refused command leaves none of, of which it carried so many first ones.
pub fn drop_disputed(carried: usize, types: &mut Vec<ParameterType>)
    ensures { types.new.items ≡ refused_types carried types.old.items }
{
    let front = carried.min(types.len());
    let kept = undisputed(&types[..front]);
    if kept != carried {
        types.truncate(kept);
    }
}

/// How many types a refused command leaves, of which it carried so many first ones.
pub fn count_left(carried: usize, types: &[ParameterType]) -> usize
    ensures { result ≡ length (refused_types carried types.now) }
{
    let front = carried.min(types.len());
    let kept = undisputed(&types[..front]);
    if kept == carried { types.len() } else { kept }
}

/// Whether a server that refuses a bulk of these flags unread has dropped the long data.
pub fn drops_data(flags: u16) -> bool
    ensures { result ≡ has_dropped_data flags }
{
    flags == 0 || flags == 0x80
}
