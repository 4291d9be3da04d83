//! Requests of a server to go on with another plugin.
//!
//!     let request: AuthSwitchRequest = ParseBuf(payload).parse(alloc, ())?;
//!     let plugin = request.auth_plugin();

ghost use Rattle.std.specs.Prelude.{◌≡◌, IfOk, None, Some, [], ℕ};
ghost use Rattle.std.specs.Cow.{cow_slice_items};
ghost use Rattle.byteorder.specs.Endian.{little_bytes};
ghost use Rattle.mysql_auth.specs.PacketLaws.{switch_at-back};
ghost use Rattle.mysql_auth.specs.Packets.{SwitchFields, switch, switch_at, switch_kept};
ghost use Rattle.mysql_auth.specs.Plugins.{OldPassword, plugin_named, without_zero};
ghost use Rattle.mysql_auth.specs.Views.{plugin_view, switch_view};
ghost use Rattle.mysql_fields.specs.Laws.{unsized};
ghost use Rattle.mysql_field_constants.specs.ConstantLaws.{constant_at-sized};
ghost use Rattle.mysql_field_constants.specs.Constants.{constant_at};

use crate::headers::AuthSwitchRequestHeader;
use crate::plugin::AuthPlugin;
use crate::zero::without_zero;
use mysql_buf::ParseBuf;
use mysql_fields::{
    EofBytes, MyDeserialize, MySerialize, NullBytes, ParseExt, RawBytes, Readable, ReadsBack,
    WireError, copy_bytes, in_order, own_bytes,
};
use std::alloc::{AllocError, Global};
use std::borrow::CowSlice;

/// A server's request to go on with the plugin of old passwords, where client or server don't name
/// plugins.
/// (MySQL: Client/Server Protocol, "Protocol::OldAuthSwitchRequest".)
#[derive(Clone, Debug, Default, PartialEq, Eq, Drop)]
pub struct OldAuthSwitchRequest;

impl OldAuthSwitchRequest {
    /// The request.
    pub fn new() -> OldAuthSwitchRequest {
        OldAuthSwitchRequest
    }

    /// The plugin: that of old passwords.
    pub fn auth_plugin(&self) -> AuthPlugin<'static>
        ensures { plugin_view result ≡ OldPassword }
    {
        AuthPlugin::MysqlOldPassword
    }
}

/// fe.
impl MySerialize for OldAuthSwitchRequest {
    ghost written = { λ _. little_bytes 1 254 };

    fn serialize(&self, buf: &mut Vec<u8>) -> Result<(), AllocError> {
        AuthSwitchRequestHeader::new().serialize(buf)
    }
}

impl Readable for OldAuthSwitchRequest {
    type Ctx = ();

    ghost SIZE = { Some 1 };

    ghost Shown = { ℕ };

    ghost shown = { λ _. 254 };

    ghost read_at = { λ _ bytes. constant_at 1 254 bytes };

    ghost kept = { λ _. 254 };

    ghost sized = { λ _. constant_at-sized 1 254 };

    fn size() -> Option<usize> {
        Some(1)
    }
}

/// Refused by `UnexpectedEof` where there is no byte, then by `BadConstant`.
impl<'de> MyDeserialize<'de> for OldAuthSwitchRequest {
    // Protocol::OldAuthSwitchRequest:
    //   int<1>  header fe
    fn deserialize(
        alloc: Global,
        _ctx: (),
        buf: &mut ParseBuf<'de>,
    ) -> Result<OldAuthSwitchRequest, WireError> {
        let _header: AuthSwitchRequestHeader = buf.parse(alloc, ())?;
        Ok(OldAuthSwitchRequest)
    }
}

/// A server's request to go on with another plugin.
/// (MySQL: Client/Server Protocol, "Protocol::AuthSwitchRequest".)
///
/// Promise: its bytes are a function of its fields. Any bytes are read exactly as its layout says,
/// with the first refusal from the left. What was written is read back where nothing follows, the
/// name before its first zero (`switch`, `switch_at`, `switch_kept`).
#[derive(Debug, PartialEq, Eq, Drop)]
pub struct AuthSwitchRequest<'a> {
    auth_plugin: CowSlice<'a, u8>,
    plugin_data: CowSlice<'a, u8>,
}

impl<'a> AuthSwitchRequest<'a> {
    /// A request for the plugin of this name, with this data.
    pub fn new(
        auth_plugin: CowSlice<'a, u8>,
        plugin_data: CowSlice<'a, u8>,
    ) -> AuthSwitchRequest<'a>
        ensures { switch_view result ≡
            record {
              auth_plugin = cow_slice_items auth_plugin.entry;
              plugin_data =
                  cow_slice_items plugin_data.entry;
            } }
    {
        AuthSwitchRequest {
            auth_plugin,
            plugin_data,
        }
    }

    /// The plugin.
    pub fn auth_plugin(&self) -> AuthPlugin<'_>
        ensures { plugin_view result ≡ plugin_named (without_zero (switch_view self.now).auth_plugin) }
    {
        AuthPlugin::from_bytes(self.auth_plugin.as_slice())
    }

    /// The plugin's name, as it stands in the packet.
    pub fn auth_plugin_ref(&self) -> &[u8]
        ensures { result.now ≡ (switch_view self.now).auth_plugin }
    {
        self.auth_plugin.as_slice()
    }

    /// The data, as it stands in the packet. A plugin whose data may end with a zero of its own, such as
    /// MariaDB's ed25519, wants it so.
    pub fn plugin_data_ref(&self) -> &[u8]
        ensures { result.now ≡ (switch_view self.now).plugin_data }
    {
        self.plugin_data.as_slice()
    }

    /// The data, of which one trailing zero is dropped.
    pub fn plugin_data(&self) -> &[u8]
        ensures { result.now ≡ without_zero (switch_view self.now).plugin_data }
    {
        without_zero(self.plugin_data.as_slice())
    }

    /// The packet in bytes of its own: it borrows nothing.
    ///
    /// # Errors
    /// - `AllocError` for want of memory.
    pub fn into_owned(self, alloc: Global) -> Result<AuthSwitchRequest<'static>, AllocError>
        ensures { IfOk result (λ owned. switch_view owned ≡ switch_view self.entry) }
    {
        Ok(AuthSwitchRequest {
            auth_plugin: own_bytes(alloc, self.auth_plugin)?,
            plugin_data: own_bytes(alloc, self.plugin_data)?,
        })
    }

    /// A copy of the packet, which borrows nothing.
    ///
    /// # Errors
    /// - `AllocError` for want of memory.
    pub fn clone(&self, alloc: Global) -> Result<AuthSwitchRequest<'static>, AllocError>
        ensures { IfOk result (λ copy. switch_view copy ≡ switch_view self.now) }
    {
        Ok(AuthSwitchRequest {
            auth_plugin: copy_bytes(alloc, self.auth_plugin.as_slice())?,
            plugin_data: copy_bytes(alloc, self.plugin_data.as_slice())?,
        })
    }
}

/// fe, the plugin's name before its first zero, a zero, and the data to the end.
#[tactic(auto, unfolding(crate::specs::Packets::switch))]
impl<'a> MySerialize for AuthSwitchRequest<'a> {
    ghost written = { λ packet. switch (switch_view packet) };

    fn serialize(&self, buf: &mut Vec<u8>) -> Result<(), AllocError> {
        let header: AuthSwitchRequestHeader = AuthSwitchRequestHeader::new();
        let plugin: RawBytes<NullBytes> = RawBytes::new(CowSlice::Borrowed(
            self.auth_plugin.as_slice(),
        ));
        let data: RawBytes<EofBytes> = RawBytes::new(CowSlice::Borrowed(
            self.plugin_data.as_slice(),
        ));
        in_order!(header, plugin, data).serialize(buf)
    }
}

impl<'a> Readable for AuthSwitchRequest<'a> {
    type Ctx = ();

    ghost Shown = { SwitchFields };

    ghost shown = { switch_view };

    ghost read_at = { λ _ bytes. switch_at bytes };

    ghost kept = { λ packet. switch_kept (switch_view packet) };

    ghost IsReadBack = { λ _ _ rest. rest ≡ [] };

    ghost sized = { λ _. unsized switch_at };

    fn size() -> Option<usize>
        ensures { result ≡ None }
    {
        None
    }
}

impl<'a> ReadsBack for AuthSwitchRequest<'a> {
    ghost reads_back = { λ _ packet rest. switch_at-back (switch_view packet) rest };
}

/// Refused by `UnexpectedEof` where there is no byte, by `BadConstant`, and by `UnexpectedEof`
/// where no zero ends the plugin's name.
#[tactic(auto, unfolding(crate::specs::Packets::switch_at))]
impl<'de> MyDeserialize<'de> for AuthSwitchRequest<'de> {
    // Protocol::AuthSwitchRequest:
    //   int<1>        header fe
    //   string<NUL>   plugin name
    //   string<EOF>   authentication plugin data
    fn deserialize(
        alloc: Global,
        _ctx: (),
        buf: &mut ParseBuf<'de>,
    ) -> Result<AuthSwitchRequest<'de>, WireError> {
        let mut rest = *buf;
        let _header: AuthSwitchRequestHeader = rest.parse(alloc, ())?;
        let plugin: RawBytes<'de, NullBytes> = rest.parse(alloc, ())?;
        let data: RawBytes<'de, EofBytes> = rest.parse(alloc, ())?;
        *buf = rest;
        Ok(AuthSwitchRequest {
            auth_plugin: plugin.0,
            plugin_data: data.0,
        })
    }
}
