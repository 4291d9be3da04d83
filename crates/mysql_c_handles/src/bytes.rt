//! Bytes that the library wrote.

ghost use Rattle.std.specs.Prelude.{◌≡◌, ◌≢◌, []};
ghost use Rattle.mysql_c_handles.specs.Bytes.{Appends, HasLength, IsBytes, IsCleared, OfBytes};
ghost use Rattle.mysql_c_handles.specs.Codes.{code_number};

use crate::code::Code;
use crate::handle::Handle;
use crate::object::Object;
use crate::start::start_of;
use std::alloc::Global;

impl Object {
    /// Shows bytes, which stay where they are.
    fn show_bytes(&mut self, data: &mut *const u8, len: &mut usize) -> Code
        ensures { OfBytes self.old (code_number result) self.new (HasLength (code_number result) self.new len.new) }
    {
        match self {
            Object::Bytes(bytes) => {
                *data = start_of(bytes);
                *len = bytes.len();
                Code::Done
            }
            Object::Empty => Code::EmptyHandle,
            _ => Code::OtherKind,
        }
    }

    /// Empties bytes.
    fn clear_bytes(&mut self) -> Code
        ensures { OfBytes self.old (code_number result) self.new (IsCleared (code_number result) self.new) }
    {
        match self {
            Object::Bytes(bytes) => {
                bytes.clear();
                Code::Done
            }
            Object::Empty => Code::EmptyHandle,
            _ => Code::OtherKind,
        }
    }

    /// Appends these bytes to bytes.
    fn append_bytes(&mut self, added: &[u8]) -> Code
        ensures { OfBytes self.old (code_number result) self.new (Appends added.now (code_number result) self.new) }
    {
        match self {
            Object::Bytes(bytes) => match bytes.extend_from_slice(added) {
                Ok(()) => Code::Done,
                Err(_) => Code::Memory,
            },
            Object::Empty => Code::EmptyHandle,
            _ => Code::OtherKind,
        }
    }
}

/// Makes the handle refer to no bytes.
pub fn bytes_new(alloc: Global, handle: &mut Handle) -> u32
    ensures made { result ≡ 0 → IsBytes handle.new.object (λ bytes. bytes ≡ []) }
    ensures kept { result ≢ 0 → (result ≡ 1) × (handle.new.object ≡ handle.old.object) }
{
    match handle.set(alloc, Object::Bytes(Vec::new(alloc))) {
        Ok(()) => Code::Done.number(),
        Err(_) => Code::Memory.number(),
    }
}

/// Shows bytes. They stay where they are until the next call on the handle.
pub fn bytes_data(alloc: Global, handle: &mut Handle, data: &mut *const u8, len: &mut usize) -> u32
    ensures { OfBytes handle.old.object result handle.new.object (HasLength result handle.new.object len.new) }
{
    let Some(mut object) = handle.take(alloc) else {
        return Code::EmptyHandle.number();
    };
    let code = object.show_bytes(data, len);
    handle.put(object);
    code.number()
}

/// Empties bytes.
pub fn bytes_clear(alloc: Global, handle: &mut Handle) -> u32
    ensures { OfBytes handle.old.object result handle.new.object (IsCleared result handle.new.object) }
{
    let Some(mut object) = handle.take(alloc) else {
        return Code::EmptyHandle.number();
    };
    let code = object.clear_bytes();
    handle.put(object);
    code.number()
}

/// Appends these bytes to the bytes that a handle refers to.
pub fn append(alloc: Global, out: &mut Handle, added: &[u8]) -> Code
    ensures { OfBytes out.old.object (code_number result) out.new.object
        (Appends added.now (code_number result) out.new.object) }
{
    let Some(mut object) = out.take(alloc) else {
        return Code::EmptyHandle;
    };
    let code = object.append_bytes(added);
    out.put(object);
    code
}
