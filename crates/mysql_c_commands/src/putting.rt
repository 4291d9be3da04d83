//! Payloads put behind the bytes that a handle refers to.

ghost use Rattle.mysql_c_commands.specs.Putting.{Puts, PutsIf};

use mysql_c_handles::{Code, Handle, append};
use mysql_login::MySerialize;
use std::alloc::Global;

/// Puts what is written of a value behind the bytes that a handle refers to.
pub(crate) fn put<T: MySerialize>(alloc: Global, out: &mut Handle, value: &T) -> u32
    ensures { Puts (T.written value.now) out.old.object result out.new.object }
{
    let mut payload = Vec::new(alloc);
    match value.serialize(&mut payload) {
        Ok(()) => append(alloc, out, &payload).number(),
        Err(_) => Code::Memory.number(),
    }
}

/// Puts what is written of a value that has to be allowed behind the bytes that a handle refers to.
pub(crate) fn put_if<T: MySerialize>(
    alloc: Global,
    out: &mut Handle,
    allowed: bool,
    value: &T,
) -> u32
    ensures { PutsIf allowed (T.written value.now) out.old.object result out.new.object }
{
    if !allowed {
        return Code::BadPacket.number();
    }
    put(alloc, out, value)
}
