//! Types that a command carries, though it may not be read as a whole.

ghost use Rattle.std.specs.Prelude.{◌≡◌, IfOk};
ghost use Rattle.mysql_executions.specs.After.{bulk_types, execution_types};
ghost use Rattle.mysql_executions.specs.Types.{types_read};

use crate::bulk_reading::{carries_types, read_bulk_head};
use crate::execution_reading::{has_query_attributes, read_execution_head};
use crate::not_read::NotRead;
use crate::type_reading::{TypesRead, read_types};
use crate::types::BoundType;
use mysql_const::Capabilities;
use std::alloc::{AllocError, Global};

/// Reads so many types, up to the first that can't be read.
fn read_front(
    alloc: Global,
    named: bool,
    count: u16,
    bytes: &[u8],
) -> Result<Vec<BoundType>, AllocError>
    ensures { IfOk result (λ types. types.items ≡ (types_read named count bytes.now).found) }
{
    match read_types(alloc, named, usize::from(count), bytes) {
        Ok(TypesRead { found, rest: _ }) => Ok(found),
        Err(_) => Err(AllocError),
    }
}

/// The types that an execution's body carries for a statement's parameters. The parameters are as
/// many as `count`; the types go up to the first that can't be read, whatever stands behind it.
///
/// None where it carries no types, or what stands before them isn't laid out as in an execution.
///
/// Promise: exactly the types that stand there (`execution_types`).
///
/// # Errors
/// For want of memory.
///
/// Follows "COM_STMT_EXECUTE" (new_params_bind_flag) of the client/server protocol documentation.
#[tactic(auto, unfolding(crate::specs::After::execution_types))]
pub fn read_execution_types(
    alloc: Global,
    capabilities: Capabilities,
    count: u16,
    body: &[u8],
) -> Result<Vec<BoundType>, AllocError>
    ensures { IfOk result (λ types. types.items ≡ execution_types capabilities count body.now) }
{
    match read_execution_head(capabilities, count, body) {
        Ok(head) if head.binding.bound => read_front(
            alloc,
            has_query_attributes(capabilities),
            count,
            head.binding.rest,
        ),
        Ok(_) | Err(NotRead::Other) => Ok(Vec::new(alloc)),
        Err(NotRead::Memory) => Err(AllocError),
    }
}

/// The types that a bulk execution's body carries for a statement's parameters. The parameters are
/// as many as `count`; the types go up to the first that can't be read, whatever stands behind it.
///
/// None where it carries no types, or is cut off before them.
///
/// Promise: exactly the types that stand there (`bulk_types`).
///
/// # Errors
/// For want of memory.
///
/// Follows "COM_STMT_BULK_EXECUTE" of MariaDB's client/server protocol documentation.
#[tactic(auto, unfolding(crate::specs::After::bulk_types))]
pub fn read_bulk_types(alloc: Global, count: u16, body: &[u8]) -> Result<Vec<BoundType>, AllocError>
    ensures { IfOk result (λ types. types.items ≡ bulk_types count body.now) }
{
    match read_bulk_head(body) {
        Ok(head) if carries_types(head.flags) => read_front(alloc, false, count, head.rest),
        Ok(_) | Err(NotRead::Other) => Ok(Vec::new(alloc)),
        Err(NotRead::Memory) => Err(AllocError),
    }
}
