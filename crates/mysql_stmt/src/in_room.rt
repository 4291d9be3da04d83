//! Bytes that are appended where there is room for them.

ghost use Rattle.std.specs.Prelude.{◌≡◌, ◌++◌, ◌+◌, ◌≤◌, OnOk, length, vec_capacity, vec_len};

use std::alloc::AllocError;
use std::mem::replace;

/// Makes room for so many bytes more. Most often it stands. Where it is made, that is done to
/// another vector, so that no reference leads to this one, and its parts lie in registers.
#[inline(always)]
pub(crate) fn make_room(more: usize, out: &mut Vec<u8>) -> Result<(), AllocError>
    ensures items { out.new.items ≡ out.old.items }
    ensures room { OnOk result (vec_len out.new + more ≤ vec_capacity out.new) }
{
    if out.capacity() - out.len() < more {
        let mut grown = replace(out, Vec::new(*out.allocator()));
        let made = grown.reserve(more);
        *out = grown;
        return made;
    }
    Ok(())
}

/// Appends eight bytes, which are copied as one number.
#[inline(always)]
pub(crate) fn push_eight(bytes: [u8; 8], out: &mut Vec<u8>)
    requires all { length bytes ≡ 8 }
    requires room { vec_len out.old + 8 ≤ vec_capacity out.old }
    ensures items { out.new.items ≡ out.old.items ++ bytes }
    ensures len { vec_len out.new ≡ vec_len out.old + 8 }
    ensures capacity { vec_capacity out.new ≡ vec_capacity out.old }
{
    let [a, b, c, d, e, f, g, h] = bytes;
    out.push_reserved(a);
    out.push_reserved(b);
    out.push_reserved(c);
    out.push_reserved(d);
    out.push_reserved(e);
    out.push_reserved(f);
    out.push_reserved(g);
    out.push_reserved(h);
}

/// Appends a text's bytes by eights, and answers those that are left, fewer than eight.
#[inline(always)]
fn push_eights<'t>(text: &'t [u8], out: &mut Vec<u8>) -> &'t [u8]
    requires { vec_len out.old + length text.now ≤ vec_capacity out.old }
    ensures items { out.new.items ++ result.now ≡ out.old.items ++ text.entry.now }
    ensures room { vec_len out.new + length result.now ≤ vec_capacity out.new }
{
    let mut rest = text;
    while let Some((eight, after)) = rest.split_first_chunk::<8>() {
        push_eight(*eight, out);
        rest = after;
    }
    rest
}

/// Appends a text, which is copied here: for a short one that costs less than a call.
#[inline(always)]
pub(crate) fn push_short(text: &[u8], out: &mut Vec<u8>)
    requires { vec_len out.old + length text.now ≤ vec_capacity out.old }
    ensures { out.new.items ≡ out.old.items ++ text.now }
{
    let rest = push_eights(text, out);
    for byte in rest {
        out.push_reserved(*byte);
    }
}
