//! Parts of a packet that stand there by the client's capabilities.

ghost use Rattle.std.specs.Prelude.{◌≡◌, IfOk, Ok, map, option_map};
ghost use Rattle.std.specs.Cow.{cow_slice_items};
ghost use Rattle.mysql_handshake_response.specs.Parts.{if_held, if_there, or_empty, plugin_before_zero_at};
ghost use Rattle.mysql_handshake_response.specs.Parts.{plugin_to_zero_at};
ghost use Rattle.mysql_handshake_response.specs.AttributeViews.{attributes_view, text_attribute};
ghost use Rattle.mysql_auth.specs.Views.{plugin_view};
ghost use Rattle.mysql_fields.specs.Wire.{AnswersPart, TellsPart};
ghost use Rattle.mysql_field_constants.specs.Flags.{contains};

use crate::attributes::ConnectAttributes;
use bitflags::Flags;
use indexmap::IndexMap;
use mysql_auth::AuthPlugin;
use mysql_buf::ParseBuf;
use mysql_const::CapabilityFlags;
use mysql_fields::{MyDeserialize, MySerialize, ParseExt, WireError};
use std::alloc::{AllocError, Global};
use std::borrow::CowSlice;

/// Whether a flag is among these capabilities, by which both sides know the parts of a packet.
pub fn has(capabilities: CapabilityFlags, flag: CapabilityFlags) -> bool
    ensures { result ≡ contains capabilities.0 flag.0 }
{
    capabilities.contains(flag)
}

/// A part of a packet that is written where it is held, and else takes no byte. Writing is refused for
/// want of memory alone.
/// (MySQL: Client/Server Protocol, "Protocol::HandshakeResponse41" and "COM_CHANGE_USER".)
#[derive(Drop)]
pub struct IfHeld<'x, T>(pub &'x Option<T>);

impl<'x, T: MySerialize> MySerialize for IfHeld<'x, T> {
    ghost written = { λ part. if_held T.written part.0.now };

    fn serialize(&self, buf: &mut Vec<u8>) -> Result<(), AllocError> {
        match self.0 {
            Some(part) => part.serialize(buf),
            None => Ok(()),
        }
    }
}

/// A part of a packet that is read where it stands there, and else takes no byte.
///
/// Promise: the part is read exactly where it stands there, and else takes no byte (`if_there`).
///
/// # Errors
/// - Those of the part's own reading.
///
/// (MySQL: Client/Server Protocol, "Protocol::HandshakeResponse41" and "COM_CHANGE_USER".)
pub fn parse_if<'de, T: MyDeserialize<'de>>(
    alloc: Global,
    is_there: bool,
    ctx: T::Ctx,
    rest: &mut ParseBuf<'de>,
) -> Result<Option<T>, WireError>
    ensures { AnswersPart T.AsksForMemory (option_map T.shown) rest.new.0.now result
        (if_there is_there (T.read_at ctx) rest.old.0.now) }
{
    if !is_there {
        return Ok(None);
    }
    let part: T = rest.parse(alloc, ctx)?;
    Ok(Some(part))
}

/// A plugin by its name to a zero or to the end of the bytes, where it stands there.
///
/// It is never refused. (MySQL: Client/Server Protocol, "Protocol::HandshakeResponse41".)
pub fn plugin_to_zero<'de>(is_there: bool, rest: &mut ParseBuf<'de>) -> Option<AuthPlugin<'de>>
    ensures { if_there is_there plugin_to_zero_at rest.old.0.now ≡ Ok (option_map plugin_view result, rest.new.0.now) }
{
    if !is_there {
        return None;
    }
    Some(AuthPlugin::from_bytes(rest.eat_null_str()))
}

/// A plugin by its name to a zero, where it stands there.
///
/// # Errors
/// - `UnexpectedEof` where no zero ends the name.
///
/// (MySQL: Client/Server Protocol, "COM_CHANGE_USER".)
pub fn plugin_before_zero<'de>(
    is_there: bool,
    rest: &mut ParseBuf<'de>,
) -> Result<Option<AuthPlugin<'de>>, WireError>
    ensures { TellsPart (option_map plugin_view) rest.new.0.now result
        (if_there is_there plugin_before_zero_at rest.old.0.now) }
{
    if !is_there {
        return Ok(None);
    }
    let len = rest.len();
    let name = rest.eat_null_str();
    if name.len() == len {
        return Err(WireError::UnexpectedEof);
    }
    Ok(Some(AuthPlugin::from_bytes(name)))
}

/// These bytes, or no bytes where none are given: a packet has no sign for a text that isn't there.
pub fn or_no_bytes<'a>(bytes: Option<CowSlice<'a, u8>>) -> CowSlice<'a, u8>
    ensures { cow_slice_items result ≡ or_empty (option_map cow_slice_items bytes.entry) }
{
    match bytes {
        Some(bytes) => bytes,
        None => CowSlice::Borrowed(&[]),
    }
}

/// The plugin, which borrows nothing, where there is one.
///
/// # Errors
/// - `AllocError` for want of memory.
pub fn owned_plugin(
    alloc: Global,
    plugin: Option<AuthPlugin>,
) -> Result<Option<AuthPlugin<'static>>, AllocError>
    ensures { IfOk result (λ owned. option_map plugin_view owned ≡ option_map plugin_view plugin.entry) }
{
    match plugin {
        Some(plugin) => Ok(Some(plugin.into_owned(alloc)?)),
        None => Ok(None),
    }
}

/// A copy of the plugin, which borrows nothing, where there is one.
///
/// # Errors
/// - `AllocError` for want of memory.
pub fn copied_plugin(
    alloc: Global,
    plugin: &Option<AuthPlugin>,
) -> Result<Option<AuthPlugin<'static>>, AllocError>
    ensures { IfOk result (λ copy. option_map plugin_view copy ≡ option_map plugin_view plugin.now) }
{
    match plugin {
        Some(plugin) => Ok(Some(plugin.clone(alloc)?)),
        None => Ok(None),
    }
}

/// The attributes, which borrow nothing, where there are any.
///
/// # Errors
/// - `AllocError` for want of memory.
pub fn owned_attributes(
    alloc: Global,
    attributes: Option<ConnectAttributes>,
) -> Result<Option<ConnectAttributes<'static>>, AllocError>
    ensures { IfOk result (λ owned. option_map attributes_view owned ≡ option_map attributes_view attributes.entry) }
{
    match attributes {
        Some(all) => Ok(Some(all.into_owned(alloc)?)),
        None => Ok(None),
    }
}

/// A copy of the attributes, which borrows nothing, where there are any.
///
/// # Errors
/// - `AllocError` for want of memory.
pub fn copied_attributes(
    alloc: Global,
    attributes: &Option<ConnectAttributes>,
) -> Result<Option<ConnectAttributes<'static>>, AllocError>
    ensures { IfOk result (λ copy. option_map attributes_view copy ≡ option_map attributes_view attributes.now) }
{
    match attributes {
        Some(all) => Ok(Some(all.clone(alloc)?)),
        None => Ok(None),
    }
}

/// The attributes of these texts, which are moved and not copied, where there are any.
///
/// # Errors
/// - `AllocError` for want of memory.
pub fn attributes_of_texts<'a>(
    alloc: Global,
    texts: Option<IndexMap<String, String>>,
) -> Result<Option<ConnectAttributes<'a>>, AllocError>
    ensures { IfOk result (λ all. option_map attributes_view all ≡
        option_map (λ texts. map text_attribute texts.entries) texts) }
{
    match texts {
        Some(texts) => Ok(Some(ConnectAttributes::from_texts(alloc, texts)?)),
        None => Ok(None),
    }
}
