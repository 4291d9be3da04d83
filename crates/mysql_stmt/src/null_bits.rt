//! The bitmap of an execution.

ghost use Rattle.std.specs.Prelude.{◌≡◌, ◌++◌, ◌≤◌, IfOk, OnOk, length, map, take};
ghost use Rattle.mysql_stmt.specs.Executions.{null_bitmap, null_bits};

use crate::has_value::HasValue;
use crate::in_room::make_room;
use mysql_cells::Value;
use std::alloc::{AllocError, Global};

// The byte of the first eight values.
#[inline(always)]
fn null_byte<V: HasValue>(values: &[V]) -> u8
    ensures { result ≡ null_bits 8 (map V.value values.now) }
{
    let mut byte: u16 = 0;
    let mut bit: u16 = 1;
    for place in 0..values.len().min(8) {
        if values[place].value().is_null() {
            byte += bit;
        }
        bit *= 2;
    }
    byte as u8
}

/// Appends a bit for each value, eight to a byte, the first one the lowest bit of its byte.
///
/// The values are at most 65535. After a refusal what stood before stands in front.
///
/// # Errors
/// - `AllocError` for want of memory.
///
/// MySQL: Client/Server Protocol, "Null-Bitmap".
#[inline(always)]
pub fn put_null_bitmap<V: HasValue>(values: &[V], out: &mut Vec<u8>) -> Result<(), AllocError>
    requires { length values.now ≤ 65535 }
    ensures ok { OnOk result (out.new.items ≡ out.old.items ++ null_bitmap (map V.value values.now)) }
    ensures kept { take (length out.old.items) out.new.items ≡ out.old.items }
{
    for k in 0..(values.len() + 7) / 8 {
        make_room(1, out)?;
        out.push_reserved(null_byte(&values[8 * k..]));
    }
    Ok(())
}

// A bit for each value, eight to a byte.
pub(crate) fn null_bitmap_of(alloc: Global, values: &[&Value]) -> Result<Vec<u8>, AllocError>
    requires { length values.now ≤ 65535 }
    ensures { IfOk result (λ bytes. bytes.items ≡ null_bitmap (map (λ value. value.now) values.now)) }
{
    let mut bytes = Vec::with_capacity(alloc, (values.len() + 7) / 8)?;
    put_null_bitmap(values, &mut bytes)?;
    Ok(bytes)
}
