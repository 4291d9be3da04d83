//! Attributes of a query as they are written.

ghost use Rattle.std.specs.Prelude.{◌≡◌, ◌++◌, OnOk, true};
ghost use Rattle.mysql_execution_writer.specs.Answers.{PutsIf};
ghost use Rattle.mysql_execution_writer.specs.Cells.{are_attributes};
ghost use Rattle.mysql_execution_writer.specs.Written.{query_attributes_bytes};

use crate::bitmap::put_binding;
use crate::cells::{fit_attributes, put_attribute_types, put_attributes};
use crate::refusal::PutRefusal;
use mysql_buf::BufMutExt;
use mysql_executions::Attribute;
use std::alloc::{AllocError, Global};

/// Appends attributes, of which each has a cell. After a refusal what is there isn't said.
#[tactic(auto, unfolding(crate::specs::Written::query_attributes_bytes))]
fn put_all(attributes: &[Attribute], out: &mut Vec<u8>) -> Result<(), AllocError>
    ensures { OnOk result (out.new.items ≡ out.old.items ++ query_attributes_bytes attributes.now) }
{
    // COM_QUERY with query attributes, behind its first byte:
    //   int<lenenc>  parameter_count
    //   int<lenenc>  parameter_set_count: 1
    //   ..           null_bitmap and new_params_bind_flag (`put_binding`)
    //   (int<2> param_type_and_flag, string<lenenc> parameter name) for each parameter
    //   ..           parameter values
    out.put_lenenc_int(attributes.len() as u64)?;
    out.put_lenenc_int(1)?;
    put_binding(&[], attributes, true, out)?;
    put_attribute_types(true, attributes, out)?;
    put_attributes(attributes, out)
}

/// Appends the attributes that stand before a query's text where query attributes are in force.
///
/// Promise: exactly where each has a cell by its type (`are_attributes`), and the bytes are read as
/// the attributes, whatever text follows (`AttributesReadBack`).
///
/// # Errors
/// - `Unreadable` where a value has no cell by its type.
/// - `Memory`.
///
/// Nothing is changed then.
///
/// Follows "COM_QUERY" of the client/server protocol documentation.
pub fn put_query_attributes(
    alloc: Global,
    attributes: &[Attribute],
    out: &mut Vec<u8>,
) -> Result<(), PutRefusal>
    ensures { PutsIf (are_attributes true attributes.now) (query_attributes_bytes attributes.now)
        out.old.items out.new.items result }
{
    if !fit_attributes(true, attributes) {
        return Err(PutRefusal::Unreadable);
    }
    let mut bytes = Vec::new(alloc);
    put_all(attributes, &mut bytes)?;
    out.extend_from_slice(&bytes)?;
    Ok(())
}
