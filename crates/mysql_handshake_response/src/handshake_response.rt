//! A client's answer to the handshake: who logs in, by which plugin, to which database.
//!
//!     let answer: HandshakeResponse = ParseBuf(payload).parse(alloc, ())?;
//!     let user = answer.user();

ghost use Rattle.std.specs.Prelude.{◌≡◌, IfOk, None, map, option_map, IsOkUnless, true};
ghost use Rattle.std.specs.Cow.{cow_slice_items};
ghost use Rattle.std.specs.Int.RustNames.{bit_and};
ghost use Rattle.mysql_handshake_response.specs.AttributeViews.{attributes_view, lossy_attribute, text_attribute};
ghost use Rattle.mysql_handshake_response.specs.Parts.{marked, or_empty};
ghost use Rattle.mysql_auth.specs.Views.{plugin_view};
ghost use Rattle.mysql_handshake.specs.Capabilities.{connect_attrs, connect_with_db, plugin_auth};
ghost use Rattle.mysql_fields.specs.Laws.{unsized};
ghost use Rattle.mysql_fields.specs.Wire.{Appends, Gives, GivesPart, Tells};
ghost use Rattle.mysql_fields.specs.declared.error.WireError.TheVariants as wire;
ghost use Rattle.mysql_handshake_response.specs.Responses.{ResponseFields, collation_for, counted_scramble};
ghost use Rattle.mysql_handshake_response.specs.Responses.{fields_by_at, has_counted_scramble};
ghost use Rattle.mysql_handshake_response.specs.Responses.{marked_capabilities, named_parts_at, response, response_at};
ghost use Rattle.mysql_handshake_response.specs.Responses.{response_by, response_to, response_to_at, scramble};
ghost use Rattle.mysql_handshake_response.specs.Responses.{scramble_at};
ghost use Rattle.mysql_handshake_response.specs.ResponseViews.{response_view};
ghost use Rattle.mysql_handshake_response.specs.SslRequestViews.{ssl_request_view};
ghost use Rattle.mysql_handshake_response.specs.TextViews.{text_view};

use crate::ssl_request::SslRequest;
use crate::{
    ConnectAttributes, IfHeld, attributes_of_texts, copied_attributes, copied_plugin, has,
    or_no_bytes, parse_if, plugin_to_zero,
};
use bitflags::Flags;
use indexmap::IndexMap;
use mysql_auth::AuthPlugin;
use mysql_buf::{ParseBuf, front_of};
use mysql_const::{CapabilityFlags, MariadbCapabilities, UTF8_GENERAL_CI, UTF8MB4_GENERAL_CI};
use mysql_fields::{
    BytesRepr, LenEnc, MyDeserialize, MySerialize, NullBytes, ParseExt, RawBytes, Readable,
    U8Bytes, WireError, in_order,
};
use std::alloc::{AllocError, Global};
use std::borrow::CowSlice;

/// A client's answer to the handshake.
/// (MySQL: Client/Server Protocol, "Protocol::HandshakeResponse41"; MariaDB: Client/Server Protocol,
/// "Connecting", "Handshake Response Packet".)
///
/// Reading is refused by `UnexpectedEof` where a part that the capabilities name is cut off, and by
/// `Memory`. A plugin's name may end with the bytes.
///
/// It is read and written by its own capabilities, or, by [`HandshakeResponse::read_to`] and
/// [`HandshakeResponse::put_to`], by those that the server has too.
///
/// Promise: its bytes are a function of its fields. Any bytes are read exactly as its layout says,
/// with the first refusal from the left. Each direction stands by itself (`response`,
/// `response_at`).
#[derive(Debug, PartialEq, Eq, Drop)]
pub struct HandshakeResponse<'a> {
    request: SslRequest,
    user: RawBytes<'a, NullBytes>,
    scramble_buf: CowSlice<'a, u8>,
    db_name: Option<RawBytes<'a, NullBytes>>,
    auth_plugin: Option<AuthPlugin<'a>>,
    connect_attributes: Option<ConnectAttributes<'a>>,
}

// A database's name, a plugin and attributes, each where the capabilities name it.
type NamedParts<'a> = (
    Option<RawBytes<'a, NullBytes>>,
    Option<AuthPlugin<'a>>,
    Option<ConnectAttributes<'a>>,
);

// The number of the collation for a server of this version.
fn collation_of(server_version: (u16, u16, u16)) -> u8
    ensures { result ≡ collation_for server_version }
{
    let (major, minor, patch) = server_version;
    if major > 5 || major == 5 && (minor > 5 || minor == 5 && patch >= 3) {
        UTF8MB4_GENERAL_CI as u8
    } else {
        UTF8_GENERAL_CI as u8
    }
}

// The capabilities, which say which of these parts are held.
fn marked_with(
    mut capabilities: CapabilityFlags,
    database: bool,
    plugin: bool,
    attributes: bool,
) -> CapabilityFlags
    ensures { result.0 ≡ marked connect_attrs attributes
        (marked plugin_auth plugin (marked connect_with_db database capabilities.0)) }
{
    capabilities.set(CapabilityFlags::CLIENT_CONNECT_WITH_DB, database);
    capabilities.set(CapabilityFlags::CLIENT_PLUGIN_AUTH, plugin);
    capabilities.set(CapabilityFlags::CLIENT_CONNECT_ATTRS, attributes);
    capabilities
}

// Whether the length of the answer to the scramble is written in one byte.
fn is_counted(capabilities: CapabilityFlags) -> bool
    ensures { result ≡ has_counted_scramble capabilities.0 }
{
    !has(
        capabilities,
        CapabilityFlags::CLIENT_PLUGIN_AUTH_LENENC_CLIENT_DATA,
    ) && has(capabilities, CapabilityFlags::CLIENT_SECURE_CONNECTION)
}

// A copy of a database's name, where there is one.
fn copied_name(
    alloc: Global,
    name: &Option<RawBytes<NullBytes>>,
) -> Result<Option<RawBytes<'static, NullBytes>>, AllocError>
    ensures { IfOk result (λ copy. option_map text_view copy ≡ option_map text_view name.now) }
{
    match name {
        Some(name) => Ok(Some(name.clone(alloc)?)),
        None => Ok(None),
    }
}

// A database's name, where one is given.
fn name_of<'a>(name: Option<CowSlice<'a, u8>>) -> Option<RawBytes<'a, NullBytes>>
    ensures { option_map text_view result ≡ option_map cow_slice_items name.entry }
{
    match name {
        Some(name) => Some(RawBytes::new(name)),
        None => None,
    }
}

impl<'a> HandshakeResponse<'a> {
    /// A client's answer with these parts to a server of this version.
    ///
    /// The client takes packets of at most `max_packet_size` bytes. The capabilities of a database,
    /// a plugin and attributes are set where these are given, and else cleared. The collation is
    /// utf8mb4_general_ci (45) from version 5.5.3 on, else utf8mb3_general_ci (33). There are none
    /// of MariaDB's own capabilities.
    ///
    /// Promise: the capabilities are those that are handed in, with those of the parts set or
    /// cleared (`marked_capabilities`).
    ///
    /// # Errors
    /// - `AllocError` for want of memory.
    #[allow(clippy::too_many_arguments)]
    pub fn new(
        alloc: Global,
        scramble_buf: Option<CowSlice<'a, u8>>,
        server_version: (u16, u16, u16),
        user: Option<CowSlice<'a, u8>>,
        db_name: Option<CowSlice<'a, u8>>,
        auth_plugin: Option<AuthPlugin<'a>>,
        capabilities: CapabilityFlags,
        connect_attributes: Option<IndexMap<String, String>>,
        max_packet_size: u32,
    ) -> Result<HandshakeResponse<'a>, AllocError>
        ensures { IfOk result (λ response. response_view response ≡ record {
          request = record {
            capabilities = marked_capabilities db_name.entry auth_plugin.entry connect_attributes capabilities.0;
            max_packet_size = max_packet_size;
            character_set = collation_for server_version;
            mariadb_capabilities = 0;
          };
          user = or_empty (option_map cow_slice_items user.entry);
          scramble = or_empty (option_map cow_slice_items scramble_buf.entry);
          database = option_map cow_slice_items db_name.entry;
          plugin = option_map plugin_view auth_plugin.entry;
          attributes = option_map (λ texts. map text_attribute texts.entries) connect_attributes;
        }) }
    {
        let capabilities = marked_with(
            capabilities,
            db_name.is_some(),
            auth_plugin.is_some(),
            connect_attributes.is_some(),
        );
        let connect_attributes = attributes_of_texts(alloc, connect_attributes)?;
        Ok(HandshakeResponse {
            request: SslRequest::new(capabilities, max_packet_size, collation_of(server_version)),
            user: RawBytes::new(or_no_bytes(user)),
            scramble_buf: or_no_bytes(scramble_buf),
            db_name: name_of(db_name),
            auth_plugin,
            connect_attributes,
        })
    }

    /// The answer with these of MariaDB's own capabilities.
    pub fn with_mariadb_ext_capabilities(
        mut self,
        mariadb_ext_capabilities: MariadbCapabilities,
    ) -> HandshakeResponse<'a>
        ensures { response_view result ≡
            record (response_view self.entry) {
              request =
                  record ((response_view self.entry).request) {
                    mariadb_capabilities =
                        mariadb_ext_capabilities.0;
                  };
            } }
    {
        self.request = self
            .request
            .with_mariadb_capabilities(mariadb_ext_capabilities);
        self
    }

    /// A copy of the answer, which borrows nothing.
    ///
    /// # Errors
    /// - `AllocError` for want of memory.
    pub fn clone(&self, alloc: Global) -> Result<HandshakeResponse<'static>, AllocError>
        ensures { IfOk result (λ copy. response_view copy ≡ response_view self.now) }
    {
        let request = self.request.clone()?;
        let (user, scramble_buf) = self.copied_user(alloc)?;
        let (db_name, auth_plugin, connect_attributes) = self.copied_parts(alloc)?;
        Ok(HandshakeResponse {
            request,
            user,
            scramble_buf,
            db_name,
            auth_plugin,
            connect_attributes,
        })
    }

    // Copies of the user's name and of the answer to the scramble.
    fn copied_user(
        &self,
        alloc: Global,
    ) -> Result<(RawBytes<'static, NullBytes>, CowSlice<'static, u8>), AllocError>
        ensures user { IfOk result (λ copy. text_view copy.0 ≡ text_view self.now.user) }
        ensures scramble { IfOk result (λ copy. cow_slice_items copy.1 ≡ cow_slice_items self.now.scramble_buf) }
    {
        let user = self.user.clone(alloc)?;
        let scramble_buf = Vec::from_slice(alloc, self.scramble_buf.as_slice())?;
        Ok((user, CowSlice::Owned(scramble_buf)))
    }

    // Copies of the parts that the capabilities name.
    fn copied_parts(&self, alloc: Global) -> Result<NamedParts<'static>, AllocError>
        ensures database { IfOk result (λ copy. option_map text_view copy.0 ≡ option_map text_view self.now.db_name) }
        ensures plugin { IfOk result (λ copy. option_map plugin_view copy.1 ≡
            option_map plugin_view self.now.auth_plugin) }
        ensures attributes { IfOk result (λ copy. option_map attributes_view copy.2 ≡
            option_map attributes_view self.now.connect_attributes) }
    {
        let db_name = copied_name(alloc, &self.db_name)?;
        let auth_plugin = copied_plugin(alloc, &self.auth_plugin)?;
        let connect_attributes = copied_attributes(alloc, &self.connect_attributes)?;
        Ok((db_name, auth_plugin, connect_attributes))
    }

    /// What stands first in it, as in a request for a secure connection.
    pub fn request(&self) -> &SslRequest
        ensures { ssl_request_view result.now ≡ (response_view self.now).request }
    {
        &self.request
    }

    /// What the client can do.
    pub fn capabilities(&self) -> CapabilityFlags
        ensures { result.0 ≡ (response_view self.now).request.capabilities }
    {
        self.request.capabilities()
    }

    /// What the client can do by MariaDB's own protocol.
    pub fn mariadb_ext_capabilities(&self) -> MariadbCapabilities
        ensures { result.0 ≡ (response_view self.now).request.mariadb_capabilities }
    {
        self.request.mariadb_capabilities()
    }

    /// The number of the client's collation.
    pub fn collation(&self) -> u8
        ensures { result ≡ (response_view self.now).request.character_set }
    {
        self.request.character_set()
    }

    /// The answer to the server's scramble; at most its first 255 bytes where its length is written in one byte.
    pub fn scramble_buf(&self) -> &[u8]
        ensures { result.now ≡ counted_scramble (response_view self.now).request.capabilities
            (response_view self.now).scramble }
    {
        let bytes = self.scramble_buf.as_slice();
        if is_counted(self.capabilities()) {
            front_of(bytes, 255)
        } else {
            bytes
        }
    }

    /// The whole answer to the server's scramble.
    pub fn scramble_ref(&self) -> &[u8]
        ensures { result.now ≡ (response_view self.now).scramble }
    {
        self.scramble_buf.as_slice()
    }

    /// The user's name.
    pub fn user(&self) -> &[u8]
        ensures { result.now ≡ (response_view self.now).user }
    {
        self.user.0.as_slice()
    }

    /// The database's name, where there is one.
    pub fn db_name(&self) -> Option<&[u8]>
        ensures { option_map (λ name. name.now) result ≡ (response_view self.now).database }
    {
        match &self.db_name {
            Some(name) => Some(name.0.as_slice()),
            None => None,
        }
    }

    /// The plugin, where there is one.
    pub fn auth_plugin(&self) -> Option<&AuthPlugin<'a>>
        ensures { option_map (λ plugin. plugin_view plugin.now) result ≡ (response_view self.now).plugin }
    {
        self.auth_plugin.as_ref()
    }

    /// The attributes, where there are any.
    pub fn attributes(&self) -> Option<&ConnectAttributes<'a>>
        ensures { option_map (λ all. attributes_view all.now) result ≡ (response_view self.now).attributes }
    {
        self.connect_attributes.as_ref()
    }

    /// The attributes as texts, where there are any: all of them and in their order. Bytes that
    /// aren't UTF-8 are replaced.
    ///
    /// # Errors
    /// - `Memory`.
    pub fn connect_attributes(
        &self,
        alloc: Global,
    ) -> Result<Option<Vec<(String, String)>>, WireError>
        ensures memory { IsOkUnless result wire.Memory }
        ensures value { IfOk result
            (λ texts. option_map (λ all. map text_attribute all.items) texts ≡
            option_map (map lossy_attribute) (response_view self.now).attributes) }
    {
        match &self.connect_attributes {
            Some(all) => Ok(Some(all.texts(alloc)?)),
            None => Ok(None),
        }
    }
}

// The answer to the scramble, in the form that the capabilities name.
#[derive(Drop)]
struct ScrambleBuf<'x> {
    capabilities: CapabilityFlags,
    bytes: &'x [u8],
}

#[tactic(auto, unfolding(crate::specs::Responses::scramble))]
impl<'x> MySerialize for ScrambleBuf<'x> {
    ghost written = { λ x. scramble x.capabilities.0 x.bytes.now };

    fn serialize(&self, buf: &mut Vec<u8>) -> Result<(), AllocError> {
        if has(
            self.capabilities,
            CapabilityFlags::CLIENT_PLUGIN_AUTH_LENENC_CLIENT_DATA,
        ) {
            <LenEnc as BytesRepr>::serialize(self.bytes, buf)
        } else if has(self.capabilities, CapabilityFlags::CLIENT_SECURE_CONNECTION) {
            U8Bytes::serialize(self.bytes, buf)
        } else {
            NullBytes::serialize(self.bytes, buf)
        }
    }
}

#[tactic(auto, unfolding(crate::specs::Responses::scramble_at))]
fn parse_scramble<'de>(
    capabilities: CapabilityFlags,
    rest: &mut ParseBuf<'de>,
) -> Result<CowSlice<'de, u8>, WireError>
    ensures { Tells cow_slice_items rest.old.0.now rest.new.0.now result (scramble_at capabilities.0 rest.old.0.now) }
{
    if has(
        capabilities,
        CapabilityFlags::CLIENT_PLUGIN_AUTH_LENENC_CLIENT_DATA,
    ) {
        <LenEnc as BytesRepr>::deserialize((), rest)
    } else if has(capabilities, CapabilityFlags::CLIENT_SECURE_CONNECTION) {
        U8Bytes::deserialize((), rest)
    } else {
        NullBytes::deserialize((), rest)
    }
}

// The parts that the capabilities name.
#[tactic(auto, unfolding(crate::specs::Responses::named_parts_at))]
fn named_parts<'de>(
    alloc: Global,
    capabilities: CapabilityFlags,
    rest: &mut ParseBuf<'de>,
) -> Result<NamedParts<'de>, WireError>
    ensures { GivesPart (λ parts. (
      option_map text_view parts.0,
      option_map plugin_view parts.1,
      option_map attributes_view parts.2,
    )) rest.new.0.now result
        (named_parts_at capabilities.0 rest.old.0.now) }
{
    let with_database = has(capabilities, CapabilityFlags::CLIENT_CONNECT_WITH_DB);
    let db_name = parse_if(alloc, with_database, (), rest)?;
    let with_plugin = has(capabilities, CapabilityFlags::CLIENT_PLUGIN_AUTH);
    let auth_plugin = plugin_to_zero(with_plugin, rest);
    let with_attributes = has(capabilities, CapabilityFlags::CLIENT_CONNECT_ATTRS);
    let connect_attributes = parse_if(alloc, with_attributes, (), rest)?;
    Ok((db_name, auth_plugin, connect_attributes))
}

// The fields behind the first 32 bytes, by these capabilities.
#[tactic(auto, unfolding(crate::specs::Responses::fields_by_at))]
fn fields_by<'de>(
    alloc: Global,
    capabilities: CapabilityFlags,
    request: SslRequest,
    rest: &mut ParseBuf<'de>,
) -> Result<HandshakeResponse<'de>, WireError>
    ensures { GivesPart response_view rest.new.0.now result
        (fields_by_at capabilities.0 (ssl_request_view request) rest.old.0.now) }
{
    let user = rest.parse(alloc, ())?;
    let scramble_buf = parse_scramble(capabilities, rest)?;
    let (db_name, auth_plugin, connect_attributes) = named_parts(alloc, capabilities, rest)?;
    Ok(HandshakeResponse {
        request,
        user,
        scramble_buf,
        db_name,
        auth_plugin,
        connect_attributes,
    })
}

#[tactic(auto, unfolding(crate::specs::Responses::response_at))]
fn response_fields<'de>(
    alloc: Global,
    rest: &mut ParseBuf<'de>,
) -> Result<HandshakeResponse<'de>, WireError>
    ensures { GivesPart response_view rest.new.0.now result (response_at rest.old.0.now) }
{
    let request: SslRequest = rest.parse(alloc, ())?;
    let capabilities = request.capabilities();
    fields_by(alloc, capabilities, request, rest)
}

// An answer, written by capabilities that are handed in.
#[derive(Drop)]
struct Laid<'x, 'a> {
    capabilities: CapabilityFlags,
    response: &'x HandshakeResponse<'a>,
}

#[tactic(auto, unfolding(crate::specs::Responses::response_by))]
impl<'x, 'a> MySerialize for Laid<'x, 'a> {
    ghost written = { λ x. response_by x.capabilities.0 (response_view x.response.now) };

    fn serialize(&self, buf: &mut Vec<u8>) -> Result<(), AllocError> {
        let response = self.response;
        let scramble_buf = ScrambleBuf {
            capabilities: self.capabilities,
            bytes: response.scramble_buf.as_slice(),
        };
        let db_name = IfHeld(&response.db_name);
        let auth_plugin = IfHeld(&response.auth_plugin);
        let connect_attributes = IfHeld(&response.connect_attributes);
        in_order!(
            response.request,
            response.user,
            scramble_buf,
            db_name,
            auth_plugin,
            connect_attributes,
        )
        .serialize(buf)
    }
}

// The capabilities that both have.
#[tactic(auto, unfolding(bitflags::proofs::OnLiterals::bitflags_on_literals))]
fn both(server: CapabilityFlags, client: CapabilityFlags) -> CapabilityFlags
    ensures { result.0 ≡ bit_and server.0 client.0 }
{
    CapabilityFlags(server.0 & client.0)
}

impl<'a> HandshakeResponse<'a> {
    /// Reads an answer to a server of these capabilities. Those that both sides have are in force
    /// and say which fields stand there. A client may set others, and leave their fields out.
    /// (MySQL: Client/Server Protocol, "Protocol::HandshakeResponse41" and "Capabilities Flags".)
    ///
    /// Promise: any bytes are read exactly as the layout by the capabilities in force says, with the
    /// first refusal from the left (`response_to_at`).
    ///
    /// # Errors
    /// - `UnexpectedEof` below 32 bytes, and where a part that the capabilities in force name is cut off.
    /// - `Memory`.
    ///
    /// All bytes are left after an error.
    #[tactic(auto, unfolding(crate::specs::Responses::response_to_at))]
    pub fn read_to(
        alloc: Global,
        server: CapabilityFlags,
        buf: &mut ParseBuf<'a>,
    ) -> Result<HandshakeResponse<'a>, WireError>
        ensures { Gives response_view buf.old.0.now buf.new.0.now result
            (response_to_at server.0 buf.old.0.now) }
    {
        let mut rest = *buf;
        let request: SslRequest = rest.parse(alloc, ())?;
        let capabilities = both(server, request.capabilities());
        let response = fields_by(alloc, capabilities, request, &mut rest)?;
        *buf = rest;
        Ok(response)
    }

    /// Appends the answer as one to a server of these capabilities. The answer to the scramble has
    /// the form of those that both sides have. The database, the plugin and the attributes follow
    /// where they are held. The capabilities in force should name exactly those.
    /// (MySQL: Client/Server Protocol, "Protocol::HandshakeResponse41" and "Capabilities Flags".)
    ///
    /// Promise: exactly the bytes of that layout are appended, or nothing (`response_to`).
    ///
    /// # Errors
    /// - `AllocError` for want of memory. The buffer is then as it was.
    pub fn put_to(&self, server: CapabilityFlags, buf: &mut Vec<u8>) -> Result<(), AllocError>
        ensures { Appends result buf.old.items buf.new.items (response_to server.0 (response_view self.now)) }
    {
        let capabilities = both(server, self.capabilities());
        Laid {
            capabilities,
            response: self,
        }
        .serialize(buf)
    }
}

impl<'a> MySerialize for HandshakeResponse<'a> {
    ghost written = { λ p. response (response_view p) };

    fn serialize(&self, buf: &mut Vec<u8>) -> Result<(), AllocError> {
        Laid {
            capabilities: self.capabilities(),
            response: self,
        }
        .serialize(buf)
    }
}

impl<'a> Readable for HandshakeResponse<'a> {
    type Ctx = ();

    ghost AsksForMemory = { true };

    ghost Shown = { ResponseFields };

    ghost shown = { response_view };

    ghost read_at = { λ _ bytes. response_at bytes };

    ghost kept = { response_view };

    ghost sized = { λ _. unsized response_at };

    fn size() -> Option<usize>
        ensures { result ≡ None }
    {
        None
    }
}

impl<'de> MyDeserialize<'de> for HandshakeResponse<'de> {
    // Protocol::HandshakeResponse41:
    //   int<4>       client_flag
    //   int<4>       max_packet_size
    //   int<1>       character_set
    //   string[19]   filler
    //   int<4>       MariaDB's own capabilities
    //   string<NUL>  username
    //   auth_response, by the capabilities:
    //     string<lenenc>  with CLIENT_PLUGIN_AUTH_LENENC_CLIENT_DATA
    //     int<1> length and so many bytes, with CLIENT_SECURE_CONNECTION
    //     string<NUL>     else
    //   string<NUL>  database, with CLIENT_CONNECT_WITH_DB
    //   string<NUL>  client_plugin_name, with CLIENT_PLUGIN_AUTH; it may end with the packet
    //   attributes, with CLIENT_CONNECT_ATTRS:
    //     int<lenenc>  length of all keys and values
    //     string<lenenc> key and string<lenenc> value, one after another
    fn deserialize(
        alloc: Global,
        _ctx: (),
        buf: &mut ParseBuf<'de>,
    ) -> Result<HandshakeResponse<'de>, WireError> {
        let mut rest = *buf;
        let response = response_fields(alloc, &mut rest)?;
        *buf = rest;
        Ok(response)
    }
}
