//! What a client answers to a greeting.

ghost use Rattle.std.specs.Prelude.{◌≡◌, IfOk, option_map};
ghost use Rattle.mysql_auth.specs.Views.{plugin_view};
ghost use Rattle.mysql_handshake_response.specs.ResponseViews.{response_view};
ghost use Rattle.mysql_c_commands.specs.Logins.{Login, ReadsLogin, ShowsLogin, is_login, login_fields, login_payload};
ghost use Rattle.mysql_c_commands.specs.Logins.{named_plugin, plugin_shown, response_fits};
ghost use Rattle.mysql_c_commands.specs.Putting.{PutsIf};

use crate::putting::put;
use crate::shown_text::{ShownText, given, has_zero, lent, or_no_bytes, shown};
use mysql_c_handles::{Code, Handle};
use mysql_login::{
    AuthPlugin, CapabilityFlags, Flags, HandshakeResponse, MariadbCapabilities, ParseBuf, ParseExt,
    WireError,
};
use std::alloc::{AllocError, Global};
use std::borrow::CowSlice;

/// What C sees of a login.
#[repr(C)]
#[derive(Clone, Copy)]
pub struct ShownLogin {
    pub collation: u8,
    pub capabilities: u32,
    pub mariadb_capabilities: u32,
    pub user: ShownText,
    pub response: ShownText,
    pub database: ShownText,
    pub plugin: ShownText,
}

/// The name of a plugin, or no bytes where there is none. It is in the packet, or in the library.
fn plugin_name<'p>(plugin: Option<&'p AuthPlugin<'_>>) -> &'p [u8]
    ensures { result.now ≡ plugin_shown (option_map (λ p. plugin_view p.now) plugin.entry) }
{
    match plugin {
        Some(plugin) => plugin.as_bytes(),
        None => &[],
    }
}

/// Shows a login. Its texts stay where they are.
fn show_login(packet: &HandshakeResponse<'_>, login: &mut ShownLogin)
    ensures { ShowsLogin (response_view packet.now) login.new }
{
    login.collation = packet.collation();
    login.capabilities = packet.capabilities().0;
    login.mariadb_capabilities = packet.request().offered().mariadb.0;
    login.user = shown(packet.user());
    login.response = shown(packet.scramble_buf());
    login.database = shown(or_no_bytes(packet.db_name()));
    login.plugin = shown(plugin_name(packet.auth_plugin()));
}

/// Reads the payload of a client's answer to a greeting.
///
/// Promise: the numbers and the lengths that are shown are those of the reading (`ReadsLogin`).
pub fn login_read(alloc: Global, payload: &[u8], login: &mut ShownLogin) -> u32
    ensures { ReadsLogin payload.now result login.new }
{
    let read: Result<HandshakeResponse, WireError> = ParseBuf(payload).parse(alloc, ());
    match read {
        Ok(packet) => {
            show_login(&packet, login);
            Code::Done.number()
        }
        Err(WireError::Memory) => Code::Memory.number(),
        Err(_) => Code::BadPacket.number(),
    }
}

/// The plugin that a name is of, where there is a name.
fn named_plugin(name: Option<&[u8]>) -> Option<AuthPlugin<'_>>
    ensures { option_map plugin_view result ≡ named_plugin (option_map (λ bytes. bytes.now) name.entry) }
{
    match name {
        Some(name) => Some(AuthPlugin::from_bytes(name)),
        None => None,
    }
}

/// Whether a response to the scramble is written whole, in the form that the capabilities name.
fn response_fits(capabilities: u32, response: &[u8]) -> bool
    ensures { result ≡ response_fits capabilities response.now }
{
    let capabilities = CapabilityFlags(capabilities);
    if capabilities.contains(CapabilityFlags::CLIENT_PLUGIN_AUTH_LENENC_CLIENT_DATA) {
        return true;
    }
    if capabilities.contains(CapabilityFlags::CLIENT_SECURE_CONNECTION) {
        return response.len() <= 255;
    }
    !has_zero(response)
}

/// Whether these texts are written whole.
fn is_login(capabilities: u32, user: &[u8], response: &[u8], database: &[u8], plugin: &[u8]) -> bool
    ensures { result ≡ is_login capabilities user.now response.now database.now plugin.now }
{
    response_fits(capabilities, response)
        && !has_zero(user)
        && !has_zero(database)
        && !has_zero(plugin)
}

/// The packet of a login. Its collation is utf8mb4_general_ci, which servers know from version 5.5.3 on.
fn packet_of<'a>(
    alloc: Global,
    capabilities: u32,
    mariadb_capabilities: u32,
    max_packet_size: u32,
    user: &'a [u8],
    response: &'a [u8],
    database: &'a [u8],
    plugin: &'a [u8],
) -> Result<HandshakeResponse<'a>, AllocError>
    ensures { IfOk result (λ packet. response_view packet ≡
        login_fields (record {
          capabilities = capabilities;
          mariadb_capabilities =
              mariadb_capabilities;
          max_packet_size = max_packet_size;
          user = user.now;
          response =
              response.now;
          database = database.now;
          plugin = plugin.now;
        })) }
{
    let packet = HandshakeResponse::new(
        alloc,
        Some(CowSlice::Borrowed(response)),
        (5, 5, 3),
        Some(CowSlice::Borrowed(user)),
        lent(given(database)),
        named_plugin(given(plugin)),
        CapabilityFlags(capabilities),
        None,
        max_packet_size,
    )?;
    Ok(packet.with_mariadb_ext_capabilities(MariadbCapabilities(mariadb_capabilities)))
}

/// Appends the payload of a client's answer to a greeting to the bytes that a handle refers to.
///
/// Promise: exactly the bytes of the login's layout are appended, or the bytes stay (`PutsIf`).
pub fn login_put(
    alloc: Global,
    out: &mut Handle,
    capabilities: u32,
    mariadb_capabilities: u32,
    max_packet_size: u32,
    user: &[u8],
    response: &[u8],
    database: &[u8],
    plugin: &[u8],
) -> u32
    ensures { let login : Login =
        record {
          capabilities = capabilities;
          mariadb_capabilities =
              mariadb_capabilities;
          max_packet_size = max_packet_size;
          user = user.now;
          response =
              response.now;
          database = database.now;
          plugin = plugin.now;
        } in
        PutsIf (is_login capabilities user.now response.now database.now plugin.now)
        (login_payload login) out.old.object result out.new.object }
{
    if !is_login(capabilities, user, response, database, plugin) {
        return Code::BadPacket.number();
    }
    let packet = packet_of(
        alloc,
        capabilities,
        mariadb_capabilities,
        max_packet_size,
        user,
        response,
        database,
        plugin,
    );
    match packet {
        Ok(packet) => put(alloc, out, &packet),
        Err(_) => Code::Memory.number(),
    }
}
