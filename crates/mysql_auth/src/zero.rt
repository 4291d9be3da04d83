//! Texts that may have a zero behind them.

ghost use Rattle.std.specs.Prelude.{◌≡◌, ◌++◌, ◌∷◌, []};
ghost use Rattle.mysql_auth.specs.Plugins.{without_zero};
ghost use Rattle.mysql_fields.specs.Wire.{Appends};

use std::alloc::AllocError;

/// The bytes before a trailing zero, or all bytes where there is none. One zero is dropped at most.
/// (MySQL: Client/Server Protocol, "Protocol::AuthSwitchRequest".)
pub fn without_zero(text: &[u8]) -> &[u8]
    ensures { result.now ≡ without_zero text.now }
{
    match text {
        [front @ .., 0] => front,
        all => all,
    }
}

/// Appends a text and a zero, or nothing.
///
/// # Errors
/// - `AllocError` for want of memory. The buffer is then as it was.
///
/// (MySQL: Client/Server Protocol, "Protocol::AuthSwitchRequest".)
pub fn put_with_zero(text: &[u8], buf: &mut Vec<u8>) -> Result<(), AllocError>
    ensures { Appends result buf.old.items buf.new.items (text.now ++ 0 ∷ []) }
{
    let len = buf.len();
    buf.extend_from_slice(text)?;
    if let Err(e) = buf.push(0) {
        buf.truncate(len);
        return Err(e.into());
    }
    Ok(())
}
