//! Attributes of a query as they are read.

ghost use Rattle.std.specs.Prelude.{◌≡◌, IfOk};
ghost use Rattle.std.specs.Option.{option_map};
ghost use Rattle.mysql_executions.specs.Attributes.{query_attributes_at};
ghost use Rattle.mysql_executions.specs.Views.{Gives};

use crate::execution_reading::{must, needs_no_types, read_binding};
use crate::fields::read_lenenc_int;
use crate::not_read::NotRead;
use crate::type_reading::read_all_types;
use crate::types::Attribute;
use crate::value_reading::read_attributes;
use std::alloc::{AllocError, Global};

/// Reads the attributes that stand first.
#[tactic(auto, unfolding(crate::specs::Attributes::query_attributes_at))]
fn read_first(alloc: Global, bytes: &[u8]) -> Result<(Vec<Attribute>, &[u8]), NotRead>
    ensures { Gives (λ x. (x.0.items, x.1.now)) result (query_attributes_at bytes.now) }
{
    // COM_QUERY with query attributes, behind its first byte:
    //   int<lenenc>  parameter_count
    //   int<lenenc>  parameter_set_count: 1
    //   ..           null_bitmap and new_params_bind_flag, which is 1 (`read_binding`)
    //   (int<2> param_type_and_flag, string<lenenc> parameter name) for each parameter
    //   ..           parameter values
    let (count, rest) = read_lenenc_int(bytes)?;
    let (sets, rest) = read_lenenc_int(rest)?;
    must(sets == 1)?;
    let binding = read_binding(count, rest)?;
    must(needs_no_types(&binding, count, 0))?;
    let (types, rest) = read_all_types(alloc, true, count as usize, binding.rest)?;
    read_attributes(alloc, binding.nulls, 0, types, rest)
}

/// Reads the attributes before a query's text, and answers them and the text. They stand there
/// where query attributes are in force.
///
/// None where they aren't laid out so: a number of sets other than 1, attributes without types, a
/// type without cells, too few bytes.
///
/// Promise: exactly the attributes that stand there (`query_attributes_at`).
///
/// # Errors
/// For want of memory.
///
/// Follows "COM_QUERY" of the client/server protocol documentation.
pub fn read_query_attributes(
    alloc: Global,
    bytes: &[u8],
) -> Result<Option<(Vec<Attribute>, &[u8])>, AllocError>
    ensures { IfOk result (λ found. option_map (λ x. (x.0.items, x.1.now)) found ≡ query_attributes_at bytes.now) }
{
    match read_first(alloc, bytes) {
        Ok(found) => Ok(Some(found)),
        Err(NotRead::Other) => Ok(None),
        Err(NotRead::Memory) => Err(AllocError),
    }
}
