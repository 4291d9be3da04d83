//! What packets do with the bytes of their texts: read, show, copy and own them.

ghost use Rattle.std.specs.Prelude.{◌≡◌, IfOk, IsOkUnless};
ghost use Rattle.std.specs.Cow.{cow_slice_items, cow_str_bytes};
ghost use Rattle.mysql_fields.specs.Texts.{lenenc_text_at, lossy_text};
ghost use Rattle.mysql_fields.specs.Wire.{Tells};
ghost use Rattle.mysql_fields.specs.declared.error.WireError.TheVariants.{Memory};

use crate::WireError;
use bstr::ByteSlice;
use mysql_buf::ParseBuf;
use std::alloc::{AllocError, Global};
use std::borrow::{CowSlice, CowStr};

/// Reads the text that stands first, after its length as a length-encoded number.
///
/// # Errors
/// - `UnexpectedEof` where it is cut off. All bytes are then left.
///
/// MySQL: Client/Server Protocol, "Protocol::LengthEncodedString".
pub fn read_lenenc_text<'a>(buf: &mut ParseBuf<'a>) -> Result<&'a [u8], WireError>
    ensures { Tells (λ text. text.now) buf.old.0.now buf.new.0.now result
        (lenenc_text_at buf.old.0.now) }
{
    match buf.checked_eat_lenenc_str() {
        Some(text) => Ok(text),
        None => Err(WireError::UnexpectedEof),
    }
}

/// Bytes as text, where those that aren't UTF-8 are replaced.
///
/// # Errors
/// - `Memory`.
pub fn lossy_text(alloc: Global, bytes: &[u8]) -> Result<CowStr<'_>, WireError>
    ensures memory { IsOkUnless result Memory }
    ensures value { IfOk result (λ text. cow_str_bytes text ≡ lossy_text bytes.now) }
{
    Ok(bytes.to_str_lossy(alloc)?)
}

/// A copy of bytes, which borrows nothing.
///
/// # Errors
/// - `AllocError` for want of memory.
pub fn copy_bytes<'b>(alloc: Global, bytes: &[u8]) -> Result<CowSlice<'b, u8>, AllocError>
    ensures { IfOk result (λ copy. cow_slice_items copy ≡ bytes.now) }
{
    Ok(CowSlice::Owned(Vec::from_slice(alloc, bytes)?))
}

/// What was given, as bytes that borrow nothing: borrowed ones are copied.
///
/// # Errors
/// - `AllocError` for want of memory.
pub fn own_bytes<'b>(alloc: Global, bytes: CowSlice<'_, u8>) -> Result<CowSlice<'b, u8>, AllocError>
    ensures { IfOk result (λ owned. cow_slice_items owned ≡ cow_slice_items bytes.entry) }
{
    Ok(CowSlice::Owned(bytes.into_owned(alloc)?))
}
