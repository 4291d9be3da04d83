//! The initial handshake packet: what a server says of itself when a connection is opened.
//!
//!     let greeting: HandshakePacket = ParseBuf(payload).parse(alloc, ())?;
//!     let version = greeting.server_version_parsed();
//!     let plugin = greeting.auth_plugin();

ghost use Rattle.std.specs.Prelude.{[], ◌≡◌, ◌≤◌, IfOk, None, Ok, Some, length, IsOkUnless};
ghost use Rattle.std.specs.Cow.{cow_slice_items, cow_str_bytes};
ghost use Rattle.std.specs.Option.{option_map};
ghost use Rattle.mysql_fields.specs.Texts.{lossy_text};
ghost use Rattle.mysql_auth.specs.Plugins.{plugin_named, without_zero};
ghost use Rattle.mysql_auth.specs.Views.{plugin_view};
ghost use Rattle.mysql_handshake.specs.Capabilities.{offered, plugin_auth, secure_connection};
ghost use Rattle.mysql_handshake.specs.HandshakeViews.{fixed_view, handshake_view};
ghost use Rattle.mysql_handshake.specs.Handshakes.{HandshakeFields, block_at, fixed, fixed_at, fixed_held};
ghost use Rattle.mysql_handshake.specs.Handshakes.{fixed_written, flags_at, greeting, name_held, scramble_fits};
ghost use Rattle.mysql_handshake.specs.Handshakes.{scramble_held};
ghost use Rattle.mysql_handshake.specs.Handshakes.{handshake, handshake_at, name_at, name_written, nonce_of};
ghost use Rattle.mysql_handshake.specs.Handshakes.{scramble_at, scramble_front, scramble_written, scrambles_length};
ghost use Rattle.mysql_handshake.specs.Versions.{IsMariadbVersion, IsTheOne, IsVersion};
ghost use Rattle.mysql_fields.specs.Forms.{bytes_at};
ghost use Rattle.mysql_fields.specs.Laws.{unsized};
ghost use Rattle.mysql_fields.specs.Wire.{Appends, Tells, TellsPart};
ghost use Rattle.mysql_fields.specs.Texts.{null_text};
ghost use Rattle.mysql_field_constants.specs.Either.{either_written};
ghost use Rattle.mysql_field_constants.specs.Flags.{contains};
ghost use Rattle.mysql_fields.specs.declared.error.WireError.TheVariants as wire;

use crate::both_sides::offered_by;
use crate::versions::{mariadb_version, version_of};
use bitflags::Flags;
use mysql_auth::{AuthPlugin, put_with_zero, without_zero};
use mysql_buf::{ParseBuf, front_of};
use mysql_const::{Capabilities, CapabilityFlags, MariadbCapabilities, StatusFlags};
use mysql_field_constants::{Const, Either, RawFlags, Skip};
use mysql_fields::{
    BareBytes, EofBytes, LeU16, LeU32, LeU32LowerHalf, LeU32UpperHalf, MyDeserialize, MySerialize,
    NullBytes, ParseExt, RawBytes, RawInt, Readable, WireError, in_order, lossy_text, own_bytes,
};
use std::alloc::{AllocError, Global};
use std::borrow::{CowSlice, CowStr};

/// The most bytes that count of a second scramble: as many as a length in one byte leaves it.
const SCRAMBLE_2_MAX_LEN: usize = 247;

/// The server's first packet: its version, what it can do, and the nonce of the plugin that it
/// begins with.
/// (MySQL: Client/Server Protocol, "Protocol::HandshakeV10"; MariaDB: "Connecting", 'Initial
/// handshake packet'.)
///
/// Promise: its bytes are a function of its fields. Any bytes are read exactly as its layout says,
/// with the first refusal from the left. Each direction stands by itself (`handshake`,
/// `handshake_at`).
#[derive(Debug, PartialEq, Eq, Drop)]
pub struct HandshakePacket<'a> {
    protocol_version: u8,
    server_version: CowSlice<'a, u8>,
    connection_id: u32,
    scramble_1: [u8; 8],
    capabilities: CapabilityFlags,
    default_collation: u8,
    status_flags: StatusFlags,
    auth_plugin_data_len: u8,
    mariadb_ext_capabilities: MariadbCapabilities,
    scramble_2: Option<CowSlice<'a, u8>>,
    auth_plugin_name: Option<CowSlice<'a, u8>>,
}

// The fields of fixed length.
#[derive(Drop)]
struct FixedBlock {
    connection_id: u32,
    scramble_1: [u8; 8],
    capabilities: CapabilityFlags,
    default_collation: u8,
    status_flags: StatusFlags,
    auth_plugin_data_len: u8,
    mariadb_ext_capabilities: MariadbCapabilities,
}

// What counts of a second scramble.
fn scramble_front(text: &[u8]) -> &[u8]
    ensures value { result.now ≡ scramble_front text.now }
    ensures len { length result.now ≤ 247 }
{
    front_of(text, SCRAMBLE_2_MAX_LEN)
}

fn has_scramble_2(capabilities: CapabilityFlags) -> bool
    ensures { result ≡ contains capabilities.0 secure_connection }
{
    capabilities.contains(CapabilityFlags::CLIENT_SECURE_CONNECTION)
}

fn has_plugin_name(capabilities: CapabilityFlags) -> bool
    ensures { result ≡ contains capabilities.0 plugin_auth }
{
    capabilities.contains(CapabilityFlags::CLIENT_PLUGIN_AUTH)
}

// The length of both scrambles that is written.
fn scrambles_len(capabilities: CapabilityFlags, scramble_2: &Option<CowSlice<'_, u8>>) -> u8
    ensures { result ≡ scrambles_length capabilities.0 (option_map cow_slice_items scramble_2.now) }
{
    match scramble_2 {
        None => 0,
        Some(text) => {
            if has_plugin_name(capabilities) {
                (scramble_front(text.as_slice()).len() + 8) as u8
            } else {
                0
            }
        }
    }
}

// The same text, which borrows nothing.
fn owned_text(
    text: Option<CowSlice<'_, u8>>,
    alloc: Global,
) -> Result<Option<CowSlice<'static, u8>>, AllocError>
    ensures { IfOk result (λ owned. option_map cow_slice_items owned ≡ option_map cow_slice_items text.entry) }
{
    match text {
        None => Ok(None),
        Some(text) => Ok(Some(own_bytes(alloc, text)?)),
    }
}

// The same text, which is lent.
fn lent_text<'b>(text: &'b Option<CowSlice<'_, u8>>) -> Option<CowSlice<'b, u8>>
    ensures { option_map cow_slice_items result ≡ option_map cow_slice_items text.now }
{
    match text {
        None => None,
        Some(text) => Some(CowSlice::Borrowed(text.as_slice())),
    }
}

impl<'a> HandshakePacket<'a> {
    /// A packet of these fields, without capabilities of MariaDB's own. Of a second scramble the
    /// first 247 bytes count. The flags should say whether there is a second scramble
    /// (`CLIENT_SECURE_CONNECTION`) and a plugin's name (`CLIENT_PLUGIN_AUTH`).
    /// (MySQL: Client/Server Protocol, "Protocol::HandshakeV10".)
    pub fn new(
        protocol_version: u8,
        server_version: CowSlice<'a, u8>,
        connection_id: u32,
        scramble_1: [u8; 8],
        scramble_2: Option<CowSlice<'a, u8>>,
        capabilities: CapabilityFlags,
        default_collation: u8,
        status_flags: StatusFlags,
        auth_plugin_name: Option<CowSlice<'a, u8>>,
    ) -> HandshakePacket<'a>
        ensures { handshake_view result
            ≡ record {
              protocol_version = protocol_version;
              server_version = cow_slice_items server_version.entry;
              connection_id = connection_id;
              scramble_1 = scramble_1;
              capabilities = capabilities.0;
              default_collation = default_collation;
              status_flags = status_flags.0;
              data_length = scrambles_length capabilities.0 (option_map cow_slice_items scramble_2.entry);
              mariadb_ext_capabilities = 0;
              scramble_2 = option_map cow_slice_items scramble_2.entry;
              auth_plugin_name = option_map cow_slice_items auth_plugin_name.entry;
            } }
    {
        let auth_plugin_data_len = scrambles_len(capabilities, &scramble_2);
        HandshakePacket {
            protocol_version,
            server_version,
            connection_id,
            scramble_1,
            capabilities,
            default_collation,
            status_flags,
            auth_plugin_data_len,
            mariadb_ext_capabilities: MariadbCapabilities(0),
            scramble_2,
            auth_plugin_name,
        }
    }

    /// The packet with these capabilities of MariaDB's own.
    ///
    /// (MariaDB: "Connecting", 'Capabilities'.)
    pub fn with_mariadb_ext_capabilities(
        mut self,
        flags: MariadbCapabilities,
    ) -> HandshakePacket<'a>
        ensures { handshake_view result ≡ record (handshake_view self.entry) { mariadb_ext_capabilities = flags.0 } }
    {
        self.mariadb_ext_capabilities = flags;
        self
    }

    /// The protocol's version, 10.
    pub fn protocol_version(&self) -> u8
        ensures { result ≡ (handshake_view self.now).protocol_version }
    {
        self.protocol_version
    }

    /// The server's version, as bytes.
    pub fn server_version_ref(&self) -> &[u8]
        ensures { result.now ≡ (handshake_view self.now).server_version }
    {
        self.server_version.as_slice()
    }

    /// The server's version as text; bytes that aren't UTF-8 are replaced.
    ///
    /// # Errors
    /// - `Memory`.
    pub fn server_version_str(&self, alloc: Global) -> Result<CowStr<'_>, WireError>
        ensures memory { IsOkUnless result wire.Memory }
        ensures value { IfOk result (λ text. cow_str_bytes text ≡
            lossy_text (handshake_view self.now).server_version) }
    {
        lossy_text(alloc, self.server_version_ref())
    }

    /// The version that the text begins with: three numbers of at most two, two and three digits,
    /// with dots between. A MariaDB server from 10 on may begin with 5.5.5.
    ///
    /// Promise: the version is the one that the server's text is by the definition, and None where
    /// it is none (`IsVersion`).
    pub fn server_version_parsed(&self) -> Option<(u16, u16, u16)>
        ensures { IsTheOne (IsVersion (handshake_view self.now).server_version) result }
    {
        version_of(self.server_version_ref())
    }

    /// The version of a MariaDB server, which `-MariaDB` follows; `5.5.5-` may stand before it.
    /// None of other servers.
    /// (MariaDB: "Connecting", 'Initial handshake packet'.)
    pub fn maria_db_server_version_parsed(&self) -> Option<(u16, u16, u16)>
        ensures { IsTheOne (IsMariadbVersion (handshake_view self.now).server_version) result }
    {
        mariadb_version(self.server_version_ref())
    }

    /// The number of the connection.
    pub fn connection_id(&self) -> u32
        ensures { result ≡ (handshake_view self.now).connection_id }
    {
        self.connection_id
    }

    /// The first 8 bytes of the nonce.
    pub fn scramble_1_ref(&self) -> &[u8]
        ensures { result.now ≡ (handshake_view self.now).scramble_1 }
    {
        self.scramble_1.as_slice()
    }

    /// What follows of the nonce, if anything does; at most 247 bytes, and often a zero behind it.
    pub fn scramble_2_ref(&self) -> Option<&[u8]>
        ensures { option_map (λ text. text.now) result ≡
            option_map scramble_front (handshake_view self.now).scramble_2 }
    {
        match &self.scramble_2 {
            None => None,
            Some(text) => Some(scramble_front(text.as_slice())),
        }
    }

    /// What the server can do.
    pub fn capabilities(&self) -> CapabilityFlags
        ensures { result.0 ≡ (handshake_view self.now).capabilities }
    {
        self.capabilities
    }

    /// What the server can do by MariaDB's own protocol.
    pub fn mariadb_ext_capabilities(&self) -> MariadbCapabilities
        ensures { result.0 ≡ (handshake_view self.now).mariadb_ext_capabilities }
    {
        self.mariadb_ext_capabilities
    }

    /// What the server can do, by both words. Those of MariaDB's own count where `CLIENT_LONG_PASSWORD`,
    /// which MariaDB calls `CLIENT_MYSQL`, isn't set.
    /// (MariaDB: "Connecting", 'Capabilities'.)
    pub fn offered(&self) -> Capabilities
        ensures { result ≡ offered (handshake_view self.now).capabilities
            (handshake_view self.now).mariadb_ext_capabilities }
    {
        offered_by(self.capabilities, self.mariadb_ext_capabilities)
    }

    /// The number of the server's collation.
    pub fn default_collation(&self) -> u8
        ensures { result ≡ (handshake_view self.now).default_collation }
    {
        self.default_collation
    }

    /// The server's status.
    pub fn status_flags(&self) -> StatusFlags
        ensures { result.0 ≡ (handshake_view self.now).status_flags }
    {
        self.status_flags
    }

    /// The name of the plugin, if there is one, as bytes.
    pub fn auth_plugin_name_ref(&self) -> Option<&[u8]>
        ensures { option_map (λ name. name.now) result ≡ (handshake_view self.now).auth_plugin_name }
    {
        match &self.auth_plugin_name {
            None => None,
            Some(name) => Some(name.as_slice()),
        }
    }

    /// The name of the plugin, if there is one, as text; bytes that aren't UTF-8 are replaced.
    ///
    /// # Errors
    /// - `Memory`.
    pub fn auth_plugin_name_str(&self, alloc: Global) -> Result<Option<CowStr<'_>>, WireError>
        ensures memory { IsOkUnless result wire.Memory }
        ensures value { IfOk result (λ text. option_map cow_str_bytes text ≡
            option_map lossy_text
            (handshake_view self.now).auth_plugin_name) }
    {
        match &self.auth_plugin_name {
            None => Ok(None),
            Some(name) => Ok(Some(lossy_text(alloc, name.as_slice())?)),
        }
    }

    /// The plugin, if there is one. One more trailing zero of its name is dropped.
    pub fn auth_plugin(&self) -> Option<AuthPlugin<'_>>
        ensures { option_map plugin_view result ≡
            option_map (λ name. plugin_named (without_zero (without_zero name)))
            (handshake_view self.now).auth_plugin_name }
    {
        match &self.auth_plugin_name {
            None => None,
            Some(name) => Some(AuthPlugin::from_bytes(without_zero(name.as_slice()))),
        }
    }

    /// The nonce: both scrambles, cut or padded with zeros to 20 bytes.
    ///
    /// Promise: the nonce is the two scrambles as the definition joins them (`nonce_of`).
    ///
    /// # Errors
    /// - `AllocError` for want of memory.
    pub fn nonce(&self, alloc: Global) -> Result<Vec<u8>, AllocError>
        ensures { IfOk result (λ nonce. nonce.items ≡ nonce_of (handshake_view self.now)) }
    {
        let mut nonce = Vec::from_slice(alloc, self.scramble_1.as_slice())?;
        if let Some(text) = &self.scramble_2 {
            nonce.extend_from_slice(scramble_front(text.as_slice()))?;
        }
        nonce.resize(20, 0)?;
        Ok(nonce)
    }

    /// Whether the second scramble, where there is one, has the length that is read of it.
    pub fn has_whole_scramble(&self) -> bool
        ensures { result ≡ scramble_fits (handshake_view self.now).data_length (handshake_view self.now).scramble_2 }
    {
        match &self.scramble_2 {
            None => true,
            Some(text) => {
                let len = usize::from(self.auth_plugin_data_len)
                    .saturating_sub(8)
                    .max(13);
                text.as_slice().len() == len
            }
        }
    }

    /// Appends the packet as it is held. Where it was read that is what was read of it. That holds
    /// also where its length is another than the one of its second scramble, or its plugin's name
    /// holds a zero.
    /// (MySQL: Client/Server Protocol, "Protocol::HandshakeV10".)
    ///
    /// Promise: exactly its fields are appended, or nothing (`greeting`).
    ///
    /// # Errors
    /// - `AllocError` for want of memory. The buffer is then as it was.
    #[tactic(auto, unfolding(crate::specs::Handshakes::greeting))]
    pub fn put_as_held(&self, buf: &mut Vec<u8>) -> Result<(), AllocError>
        ensures { Appends result buf.old.items buf.new.items (greeting (handshake_view self.now)) }
    {
        let protocol_version: RawInt<u8> = RawInt::new(self.protocol_version);
        let server_version: RawBytes<NullBytes> = RawBytes::new(CowSlice::Borrowed(
            self.server_version_ref(),
        ));
        let block = self.held_block();
        let scramble_2 = self.held_scramble();
        let name = HeldName(&self.auth_plugin_name);
        in_order!(protocol_version, server_version, block, scramble_2, name).serialize(buf)
    }

    /// The packet in bytes of its own: it borrows nothing.
    ///
    /// # Errors
    /// - `AllocError` for want of memory.
    pub fn into_owned(self, alloc: Global) -> Result<HandshakePacket<'static>, AllocError>
        ensures { IfOk result (λ owned. handshake_view owned ≡ handshake_view self.entry) }
    {
        Ok(HandshakePacket {
            protocol_version: self.protocol_version,
            server_version: own_bytes(alloc, self.server_version)?,
            connection_id: self.connection_id,
            scramble_1: self.scramble_1,
            capabilities: self.capabilities,
            default_collation: self.default_collation,
            status_flags: self.status_flags,
            auth_plugin_data_len: self.auth_plugin_data_len,
            mariadb_ext_capabilities: self.mariadb_ext_capabilities,
            scramble_2: owned_text(self.scramble_2, alloc)?,
            auth_plugin_name: owned_text(self.auth_plugin_name, alloc)?,
        })
    }

    /// A copy of the packet, which borrows nothing.
    ///
    /// # Errors
    /// - `AllocError` for want of memory.
    pub fn clone(&self, alloc: Global) -> Result<HandshakePacket<'static>, AllocError>
        ensures { IfOk result (λ copy. handshake_view copy ≡ handshake_view self.now) }
    {
        self.lent().into_owned(alloc)
    }

    // The packet with its texts borrowed from this one.
    fn lent(&self) -> HandshakePacket<'_>
        ensures { handshake_view result ≡ handshake_view self.now }
    {
        let scramble_1 = self.scramble_1;
        HandshakePacket {
            protocol_version: self.protocol_version,
            server_version: CowSlice::Borrowed(self.server_version_ref()),
            connection_id: self.connection_id,
            scramble_1,
            capabilities: self.capabilities,
            default_collation: self.default_collation,
            status_flags: self.status_flags,
            auth_plugin_data_len: self.auth_plugin_data_len,
            mariadb_ext_capabilities: self.mariadb_ext_capabilities,
            scramble_2: lent_text(&self.scramble_2),
            auth_plugin_name: lent_text(&self.auth_plugin_name),
        }
    }

    // What is written of fixed length.
    fn fixed_block(&self) -> FixedBlock
        ensures { fixed_view result ≡ fixed_written (handshake_view self.now) }
    {
        let scramble_1 = self.scramble_1;
        FixedBlock {
            connection_id: self.connection_id,
            scramble_1,
            capabilities: self.capabilities,
            default_collation: self.default_collation,
            status_flags: self.status_flags,
            auth_plugin_data_len: scrambles_len(self.capabilities, &self.scramble_2),
            mariadb_ext_capabilities: self.mariadb_ext_capabilities,
        }
    }

    // What is held of fixed length.
    fn held_block(&self) -> FixedBlock
        ensures { fixed_view result ≡ fixed_held (handshake_view self.now) }
    {
        let scramble_1 = self.scramble_1;
        FixedBlock {
            connection_id: self.connection_id,
            scramble_1,
            capabilities: self.capabilities,
            default_collation: self.default_collation,
            status_flags: self.status_flags,
            auth_plugin_data_len: self.auth_plugin_data_len,
            mariadb_ext_capabilities: self.mariadb_ext_capabilities,
        }
    }

    // What is held of a second scramble.
    fn held_scramble(&self) -> RawBytes<'_, EofBytes>
        ensures { cow_slice_items result.0 ≡ scramble_held (handshake_view self.now).scramble_2 }
    {
        match &self.scramble_2 {
            None => RawBytes::new(CowSlice::Borrowed(&[])),
            Some(text) => RawBytes::new(CowSlice::Borrowed(text.as_slice())),
        }
    }

    // What is written of a second scramble.
    fn scramble_2_part(&self) -> RawBytes<'_, EofBytes>
        ensures { cow_slice_items result.0 ≡ scramble_written (handshake_view self.now).scramble_2 }
    {
        match &self.scramble_2 {
            None => RawBytes::new(CowSlice::Borrowed(&[])),
            Some(text) => RawBytes::new(CowSlice::Borrowed(scramble_front(text.as_slice()))),
        }
    }

    // What is written of a plugin's name.
    fn name_part(&self) -> Either<RawBytes<'_, NullBytes>, ()>
        ensures { either_written (λ name. null_text (cow_slice_items name.0)) (λ _. []) result ≡
            name_written (handshake_view self.now).auth_plugin_name }
    {
        match &self.auth_plugin_name {
            None => Either::Right(()),
            Some(name) => Either::Left(RawBytes::new(CowSlice::Borrowed(name.as_slice()))),
        }
    }
}

/// The fields in their order; the reserved bytes are zeros.
#[tactic(auto, unfolding(crate::specs::Handshakes::handshake))]
impl<'a> MySerialize for HandshakePacket<'a> {
    ghost written = { λ packet. handshake (handshake_view packet) };

    fn serialize(&self, buf: &mut Vec<u8>) -> Result<(), AllocError> {
        let protocol_version: RawInt<u8> = RawInt::new(self.protocol_version);
        let server_version: RawBytes<NullBytes> = RawBytes::new(CowSlice::Borrowed(
            self.server_version_ref(),
        ));
        let block = self.fixed_block();
        let scramble_2 = self.scramble_2_part();
        let name = self.name_part();
        in_order!(protocol_version, server_version, block, scramble_2, name).serialize(buf)
    }
}

// The whole name of a plugin and a zero, where there is a name.
#[derive(Drop)]
struct HeldName<'x, 'a>(&'x Option<CowSlice<'a, u8>>);

impl<'x, 'a> MySerialize for HeldName<'x, 'a> {
    ghost written = { λ x. name_held (option_map cow_slice_items x.0.now) };

    fn serialize(&self, buf: &mut Vec<u8>) -> Result<(), AllocError> {
        match self.0 {
            None => Ok(()),
            Some(name) => put_with_zero(name.as_slice(), buf),
        }
    }
}

// The fields of fixed length in their order.
#[tactic(auto, unfolding(crate::specs::Handshakes::fixed))]
impl MySerialize for FixedBlock {
    ghost written = { λ block. fixed (fixed_view block) };

    fn serialize(&self, buf: &mut Vec<u8>) -> Result<(), AllocError> {
        in_order!(
            RawInt::<LeU32>::new(self.connection_id),
            self.scramble_1,
            Skip::<1>,
            RawInt::<LeU32LowerHalf>::new(self.capabilities.0),
            RawInt::<u8>::new(self.default_collation),
            RawInt::<LeU16>::new(self.status_flags.0),
            RawInt::<LeU32UpperHalf>::new(self.capabilities.0),
            RawInt::<u8>::new(self.auth_plugin_data_len),
            Skip::<6>,
            RawInt::<LeU32>::new(self.mariadb_ext_capabilities.0),
        )
        .serialize(buf)
    }
}

impl<'a> Readable for HandshakePacket<'a> {
    type Ctx = ();

    ghost Shown = { HandshakeFields };

    ghost shown = { handshake_view };

    ghost read_at = { λ _ bytes. handshake_at bytes };

    ghost kept = { handshake_view };

    ghost sized = { λ _. unsized handshake_at };

    fn size() -> Option<usize>
        ensures { result ≡ None }
    {
        None
    }
}

// Takes the first eight bytes.
#[tactic(auto, unfolding(mysql_buf::specs::Reading::first))]
fn eight_bytes(buf: &mut ParseBuf) -> Result<[u8; 8], WireError>
    ensures { Tells (λ bytes. bytes) buf.old.0.now buf.new.0.now result (bytes_at 8 buf.old.0.now) }
{
    match buf.0.split_first_chunk::<8>() {
        None => Err(WireError::UnexpectedEof),
        Some((bytes, rest)) => {
            buf.0 = rest;
            Ok(*bytes)
        }
    }
}

// The capabilities, the collation and the status.
#[tactic(auto, unfolding(crate::specs::Handshakes::flags_at, bitflags::proofs::OnLiterals::bitflags_on_literals))]
fn flags_of(
    alloc: Global,
    block: &mut ParseBuf,
) -> Result<(CapabilityFlags, u8, StatusFlags), WireError>
    ensures { TellsPart (λ flags. (flags.0.0, flags.1, flags.2.0)) block.new.0.now result (flags_at block.old.0.now) }
{
    let low: RawInt<LeU32LowerHalf> = block.parse(alloc, ())?;
    let default_collation = block.checked_eat_u8().ok_or(WireError::UnexpectedEof)?;
    let status_flags: Const<StatusFlags, LeU16> = block.parse(alloc, ())?;
    let high: RawInt<LeU32UpperHalf> = block.parse(alloc, ())?;
    // All 32 bits have names.
    let capabilities = CapabilityFlags(low.0 | high.0);
    Ok((capabilities, default_collation, status_flags.0))
}

// The fields of fixed length.
#[tactic(auto, unfolding(crate::specs::Handshakes::fixed_at, bitflags::proofs::OnLiterals::bitflags_on_literals))]
fn fixed_block_of(alloc: Global, block: &mut ParseBuf) -> Result<FixedBlock, WireError>
    ensures { TellsPart fixed_view block.new.0.now result (fixed_at block.old.0.now) }
{
    let connection_id = block.checked_eat_u32_le().ok_or(WireError::UnexpectedEof)?;
    let scramble_1 = eight_bytes(block)?;
    let _filler: Skip<1> = block.parse(alloc, ())?;
    let (capabilities, default_collation, status_flags) = flags_of(alloc, block)?;
    let auth_plugin_data_len = block.checked_eat_u8().ok_or(WireError::UnexpectedEof)?;
    let _reserved: Skip<6> = block.parse(alloc, ())?;
    let mariadb: RawFlags<MariadbCapabilities, LeU32> = block.parse(alloc, ())?;
    Ok(FixedBlock {
        connection_id,
        scramble_1,
        capabilities,
        default_collation,
        status_flags,
        auth_plugin_data_len,
        mariadb_ext_capabilities: mariadb.get(),
    })
}

// The fields of fixed length, which are there together or not at all.
#[tactic(auto, unfolding(crate::specs::Handshakes::block_at))]
fn fixed_of(alloc: Global, rest: &mut ParseBuf) -> Result<FixedBlock, WireError>
    ensures { TellsPart fixed_view rest.new.0.now result (block_at rest.old.0.now) }
{
    let block: &[u8] = rest.parse(alloc, 31)?;
    fixed_block_of(alloc, &mut ParseBuf(block))
}

// The second scramble, where there is one.
#[tactic(auto, unfolding(crate::specs::Handshakes::scramble_at))]
fn scramble_2_of<'a>(
    alloc: Global,
    capabilities: CapabilityFlags,
    len: u8,
    buf: &mut ParseBuf<'a>,
) -> Result<Option<CowSlice<'a, u8>>, WireError>
    ensures { TellsPart (option_map cow_slice_items) buf.new.0.now result
        (scramble_at capabilities.0 len buf.old.0.now) }
{
    if !has_scramble_2(capabilities) {
        return Ok(None);
    }
    let len = usize::from(len).saturating_sub(8).max(13);
    let text: RawBytes<'a, BareBytes<SCRAMBLE_2_MAX_LEN>> = buf.parse(alloc, len)?;
    Ok(Some(text.0))
}

// The plugin's name, where there is one. The zero behind it may be missing.
#[tactic(auto, unfolding(crate::specs::Handshakes::name_at))]
fn plugin_name_of<'a>(
    capabilities: CapabilityFlags,
    buf: &mut ParseBuf<'a>,
) -> Option<CowSlice<'a, u8>>
    ensures { name_at capabilities.0 buf.old.0.now ≡ Ok (option_map cow_slice_items result, buf.new.0.now) }
{
    if !has_plugin_name(capabilities) {
        return None;
    }
    Some(CowSlice::Borrowed(without_zero(buf.eat_all())))
}

// The fields in their order.
#[tactic(auto, unfolding(crate::specs::Handshakes::handshake_at))]
fn handshake_of<'a>(
    alloc: Global,
    rest: &mut ParseBuf<'a>,
) -> Result<HandshakePacket<'a>, WireError>
    ensures { TellsPart handshake_view rest.new.0.now result (handshake_at rest.old.0.now) }
{
    let protocol_version = rest.checked_eat_u8().ok_or(WireError::UnexpectedEof)?;
    let server_version: RawBytes<'a, NullBytes> = rest.parse(alloc, ())?;
    let fixed = fixed_of(alloc, rest)?;
    let scramble_2 = scramble_2_of(alloc, fixed.capabilities, fixed.auth_plugin_data_len, rest)?;
    let auth_plugin_name = plugin_name_of(fixed.capabilities, rest);
    let scramble_1 = fixed.scramble_1;
    Ok(HandshakePacket {
        protocol_version,
        server_version: server_version.0,
        connection_id: fixed.connection_id,
        scramble_1,
        capabilities: fixed.capabilities,
        default_collation: fixed.default_collation,
        status_flags: fixed.status_flags,
        auth_plugin_data_len: fixed.auth_plugin_data_len,
        mariadb_ext_capabilities: fixed.mariadb_ext_capabilities,
        scramble_2,
        auth_plugin_name,
    })
}

/// Refused by `UnexpectedEof` where the bytes end before the fixed fields do. Refused by
/// `UnknownValue` where a bit of the status has no name. Refused by `UnexpectedEof` where the
/// second scramble is cut off.
impl<'de> MyDeserialize<'de> for HandshakePacket<'de> {
    // Protocol::HandshakeV10:
    //   int<1>       protocol version
    //   string<NUL>  server version
    //   int<4>       thread id
    //   string[8]    auth-plugin-data-part-1
    //   int<1>       filler
    //   int<2>       capability_flags_1, the lower half
    //   int<1>       character_set
    //   int<2>       status_flags
    //   int<2>       capability_flags_2, the upper half
    //   int<1>       auth_plugin_data_len
    //   string[6]    reserved
    //   int<4>       MariaDB's own capabilities
    //   $length      auth-plugin-data-part-2, with CLIENT_SECURE_CONNECTION:
    //                    max(13, auth_plugin_data_len - 8) bytes
    //   string<NUL>  auth_plugin_name, with CLIENT_PLUGIN_AUTH; its zero may be missing
    fn deserialize(
        alloc: Global,
        _ctx: (),
        buf: &mut ParseBuf<'de>,
    ) -> Result<HandshakePacket<'de>, WireError> {
        let mut rest = *buf;
        let packet = handshake_of(alloc, &mut rest)?;
        *buf = rest;
        Ok(packet)
    }
}
