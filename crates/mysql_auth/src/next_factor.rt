//! The request of a server for one more plugin, where more than one logs a user in.
//!
//!     let request: AuthNextFactor = ParseBuf(payload).parse(alloc, ())?;
//!     let plugin = request.auth_plugin();

ghost use Rattle.std.specs.Prelude.{◌≡◌, IfOk, None, []};
ghost use Rattle.std.specs.Cow.{cow_slice_items};
ghost use Rattle.mysql_auth.specs.PacketLaws.{next_factor_at-back};
ghost use Rattle.mysql_auth.specs.Packets.{SwitchFields, next_factor, next_factor_at, switch_kept};
ghost use Rattle.mysql_auth.specs.Plugins.{plugin_named, without_zero};
ghost use Rattle.mysql_auth.specs.Views.{next_factor_view, plugin_view};
ghost use Rattle.mysql_fields.specs.Laws.{unsized};

use crate::headers::AuthNextFactorHeader;
use crate::plugin::AuthPlugin;
use mysql_buf::ParseBuf;
use mysql_fields::{
    EofBytes, MyDeserialize, MySerialize, NullBytes, ParseExt, RawBytes, Readable, ReadsBack,
    WireError, copy_bytes, in_order, own_bytes,
};
use std::alloc::{AllocError, Global};
use std::borrow::CowSlice;

/// A server's request to go on with one more plugin. It comes where the one before was content and
/// both sides have `MULTI_FACTOR_AUTHENTICATION`.
/// (MySQL: Client/Server Protocol, "Protocol::AuthNextFactor".)
///
/// Promise: its bytes are a function of its fields. Any bytes are read exactly as its layout says,
/// with the first refusal from the left. What was written is read back where nothing follows, the
/// name before its first zero (`next_factor`, `next_factor_at`, `switch_kept`).
#[derive(Debug, PartialEq, Eq, Drop)]
pub struct AuthNextFactor<'a> {
    auth_plugin: CowSlice<'a, u8>,
    plugin_data: CowSlice<'a, u8>,
}

impl<'a> AuthNextFactor<'a> {
    /// A request for the plugin of this name, with this data.
    pub fn new(auth_plugin: CowSlice<'a, u8>, plugin_data: CowSlice<'a, u8>) -> AuthNextFactor<'a>
        ensures { next_factor_view result ≡
            record {
              auth_plugin = cow_slice_items auth_plugin.entry;
              plugin_data =
                  cow_slice_items plugin_data.entry;
            } }
    {
        AuthNextFactor {
            auth_plugin,
            plugin_data,
        }
    }

    /// The plugin.
    pub fn auth_plugin(&self) -> AuthPlugin<'_>
        ensures { plugin_view result ≡ plugin_named (without_zero (next_factor_view self.now).auth_plugin) }
    {
        AuthPlugin::from_bytes(self.auth_plugin.as_slice())
    }

    /// The plugin's name, as it stands in the packet.
    pub fn auth_plugin_ref(&self) -> &[u8]
        ensures { result.now ≡ (next_factor_view self.now).auth_plugin }
    {
        self.auth_plugin.as_slice()
    }

    /// The data, as it stands in the packet.
    pub fn plugin_data_ref(&self) -> &[u8]
        ensures { result.now ≡ (next_factor_view self.now).plugin_data }
    {
        self.plugin_data.as_slice()
    }

    /// The packet in bytes of its own: it borrows nothing.
    ///
    /// # Errors
    /// - `AllocError` for want of memory.
    pub fn into_owned(self, alloc: Global) -> Result<AuthNextFactor<'static>, AllocError>
        ensures { IfOk result (λ owned. next_factor_view owned ≡ next_factor_view self.entry) }
    {
        Ok(AuthNextFactor {
            auth_plugin: own_bytes(alloc, self.auth_plugin)?,
            plugin_data: own_bytes(alloc, self.plugin_data)?,
        })
    }

    /// A copy of the packet, which borrows nothing.
    ///
    /// # Errors
    /// - `AllocError` for want of memory.
    pub fn clone(&self, alloc: Global) -> Result<AuthNextFactor<'static>, AllocError>
        ensures { IfOk result (λ copy. next_factor_view copy ≡ next_factor_view self.now) }
    {
        Ok(AuthNextFactor {
            auth_plugin: copy_bytes(alloc, self.auth_plugin.as_slice())?,
            plugin_data: copy_bytes(alloc, self.plugin_data.as_slice())?,
        })
    }
}

/// 02, the plugin's name before its first zero, a zero, and the data to the end.
#[tactic(auto, unfolding(crate::specs::Packets::next_factor))]
impl<'a> MySerialize for AuthNextFactor<'a> {
    ghost written = { λ packet. next_factor (next_factor_view packet) };

    fn serialize(&self, buf: &mut Vec<u8>) -> Result<(), AllocError> {
        let header: AuthNextFactorHeader = AuthNextFactorHeader::new();
        let plugin: RawBytes<NullBytes> = RawBytes::new(CowSlice::Borrowed(
            self.auth_plugin.as_slice(),
        ));
        let data: RawBytes<EofBytes> = RawBytes::new(CowSlice::Borrowed(
            self.plugin_data.as_slice(),
        ));
        in_order!(header, plugin, data).serialize(buf)
    }
}

impl<'a> Readable for AuthNextFactor<'a> {
    type Ctx = ();

    ghost Shown = { SwitchFields };

    ghost shown = { next_factor_view };

    ghost read_at = { λ _ bytes. next_factor_at bytes };

    ghost kept = { λ packet. switch_kept (next_factor_view packet) };

    ghost IsReadBack = { λ _ _ rest. rest ≡ [] };

    ghost sized = { λ _. unsized next_factor_at };

    fn size() -> Option<usize>
        ensures { result ≡ None }
    {
        None
    }
}

impl<'a> ReadsBack for AuthNextFactor<'a> {
    ghost reads_back = { λ _ packet rest. next_factor_at-back (next_factor_view packet) rest };
}

/// Refused by `UnexpectedEof` where there is no byte, by `BadConstant`, and by `UnexpectedEof`
/// where no zero ends the plugin's name.
#[tactic(auto, unfolding(crate::specs::Packets::next_factor_at))]
impl<'de> MyDeserialize<'de> for AuthNextFactor<'de> {
    // Protocol::AuthNextFactor:
    //   int<1>        header 02
    //   string<NUL>   plugin name
    //   string<EOF>   authentication plugin data
    fn deserialize(
        alloc: Global,
        _ctx: (),
        buf: &mut ParseBuf<'de>,
    ) -> Result<AuthNextFactor<'de>, WireError> {
        let mut rest = *buf;
        let _header: AuthNextFactorHeader = rest.parse(alloc, ())?;
        let plugin: RawBytes<'de, NullBytes> = rest.parse(alloc, ())?;
        let data: RawBytes<'de, EofBytes> = rest.parse(alloc, ())?;
        *buf = rest;
        Ok(AuthNextFactor {
            auth_plugin: plugin.0,
            plugin_data: data.0,
        })
    }
}
