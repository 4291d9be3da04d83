//! What a server greets a client with.

ghost use Rattle.std.specs.Prelude.{◌≡◌, ◌+◌, ◌≤◌, ◌++◌, ◌∷◌, [], List, Ok, drop, length, take, ℕ};
ghost use Rattle.mysql_handshake.specs.Handshakes.{handshake_at};
ghost use Rattle.mysql_handshake.specs.HandshakeViews.{handshake_view};
ghost use Rattle.mysql_c_commands.specs.Greetings.{Greeting, ReadsGreeting, ShowsGreeting, greeting_capabilities};
ghost use Rattle.mysql_c_commands.specs.Greetings.{greeting_fields, greeting_payload, is_greeting};
ghost use Rattle.mysql_c_commands.specs.Putting.{PutsIf};

use crate::putting::put_if;
use crate::shown_text::{ShownText, given, has_zero, lent, or_no_bytes, shown};
use mysql_auth::without_zero;
use mysql_c_handles::{Code, Handle};
use mysql_login::{
    CapabilityFlags, Flags, HandshakePacket, MariadbCapabilities, ParseBuf, ParseExt, StatusFlags,
    WireError,
};
use std::alloc::Global;
use std::borrow::CowSlice;

/// What C sees of a greeting.
#[repr(C)]
#[derive(Clone, Copy)]
pub struct ShownGreeting {
    pub protocol: u8,
    pub collation: u8,
    pub status: u16,
    pub connection: u32,
    pub capabilities: u32,
    pub mariadb_capabilities: u32,
    pub version: ShownText,
    pub scramble_1: ShownText,
    pub scramble_2: ShownText,
    pub plugin: ShownText,
}

/// The eight bytes from a position on.
fn eight_from(bytes: &[u8], start: usize) -> &[u8]
    requires { start + 8 ≤ length bytes.now }
    ensures { result.now ≡ take 8 (drop start bytes.now) }
{
    &bytes[start..start + 8]
}

/// The first scramble where it is in the payload: behind a byte, the server's version and its zero,
/// and the connection's number.
fn scramble_1_in<'a>(payload: &'a [u8], packet: &HandshakePacket<'_>) -> &'a [u8]
    requires { (rest : List ℕ) × (handshake_at payload.now ≡ Ok (handshake_view packet.now, rest)) }
    ensures { result.now ≡ (handshake_view packet.now).scramble_1 }
{
    eight_from(payload, packet.server_version_ref().len() + 6)
}

/// Shows a greeting. Its texts stay where they are in the payload.
fn show_greeting(packet: &HandshakePacket<'_>, payload: &[u8], greeting: &mut ShownGreeting)
    requires { (rest : List ℕ) × (handshake_at payload.now ≡ Ok (handshake_view packet.now, rest)) }
    ensures { ShowsGreeting (handshake_view packet.now) greeting.new }
{
    greeting.protocol = packet.protocol_version();
    greeting.collation = packet.default_collation();
    greeting.status = packet.status_flags().0;
    greeting.connection = packet.connection_id();
    greeting.capabilities = packet.capabilities().0;
    greeting.mariadb_capabilities = packet.mariadb_ext_capabilities().0;
    greeting.version = shown(packet.server_version_ref());
    greeting.scramble_1 = shown(scramble_1_in(payload, packet));
    greeting.scramble_2 = shown(without_zero(or_no_bytes(packet.scramble_2_ref())));
    greeting.plugin = shown(or_no_bytes(packet.auth_plugin_name_ref()));
}

/// Reads the payload of a server's first packet.
///
/// Promise: the numbers and the lengths that are shown are those of the reading (`ReadsGreeting`).
pub fn greeting_read(alloc: Global, payload: &[u8], greeting: &mut ShownGreeting) -> u32
    ensures { ReadsGreeting payload.now result greeting.new }
{
    let read: Result<HandshakePacket, WireError> = ParseBuf(payload).parse(alloc, ());
    match read {
        Ok(packet) => {
            show_greeting(&packet, payload, greeting);
            Code::Done.number()
        }
        Err(_) => Code::BadPacket.number(),
    }
}

/// The second scramble and the zero that a server sends behind it.
fn with_zero(scramble: &[u8; 12]) -> [u8; 13]
    ensures { result ≡ scramble.now ++ 0 ∷ [] }
{
    let mut ended = [0; 13];
    ended[..12].copy_from_slice(scramble);
    ended
}

/// The capabilities of a server that sends two scrambles, and the name of a plugin where one is named.
fn marked(capabilities: u32, plugin: &[u8]) -> CapabilityFlags
    ensures { result.0 ≡ greeting_capabilities capabilities plugin.now }
{
    let mut marked = CapabilityFlags(capabilities);
    marked.set(CapabilityFlags::CLIENT_SECURE_CONNECTION, true);
    marked.set(CapabilityFlags::CLIENT_PLUGIN_AUTH, given(plugin).is_some());
    marked
}

/// The packet of a greeting.
fn packet_of<'a>(
    connection: u32,
    capabilities: u32,
    mariadb_capabilities: u32,
    collation: u8,
    status: u16,
    version: &'a [u8],
    scramble_1: [u8; 8],
    scramble_2: &'a [u8],
    plugin: &'a [u8],
) -> HandshakePacket<'a>
    ensures { handshake_view result ≡
        greeting_fields (record {
          connection = connection;
          capabilities =
              capabilities;
          mariadb_capabilities = mariadb_capabilities;
          collation = collation;
          status =
              status;
          version = version.now;
          scramble_1 = scramble_1;
          scramble_2 =
              scramble_2.now;
          plugin = plugin.now;
        }) }
{
    HandshakePacket::new(
        10,
        CowSlice::Borrowed(version),
        connection,
        scramble_1,
        Some(CowSlice::Borrowed(scramble_2)),
        marked(capabilities, plugin),
        collation,
        StatusFlags(status),
        lent(given(plugin)),
    )
    .with_mariadb_ext_capabilities(MariadbCapabilities(mariadb_capabilities))
}

/// Appends the payload of a server's first packet to the bytes that a handle refers to.
///
/// Promise: exactly the bytes of the greeting's layout are appended, or the bytes stay (`PutsIf`).
pub fn greeting_put(
    alloc: Global,
    out: &mut Handle,
    connection: u32,
    capabilities: u32,
    mariadb_capabilities: u32,
    collation: u8,
    status: u16,
    version: &[u8],
    scramble_1: &[u8],
    scramble_2: &[u8],
    plugin: &[u8],
) -> u32
    ensures { let g : Greeting =
        record {
          connection = connection;
          capabilities = capabilities;
          mariadb_capabilities =
              mariadb_capabilities;
          collation = collation;
          status = status;
          version =
              version.now;
          scramble_1 = scramble_1.now;
          scramble_2 = scramble_2.now ++ 0 ∷ [];
          plugin =
              plugin.now;
        } in
        PutsIf (is_greeting scramble_1.now scramble_2.now version.now plugin.now)
        (greeting_payload g) out.old.object result out.new.object }
{
    let Some(first) = scramble_1.as_array::<8>() else {
        return Code::BadPacket.number();
    };
    let Some(second) = scramble_2.as_array::<12>() else {
        return Code::BadPacket.number();
    };
    let second = with_zero(second);
    let packet = packet_of(
        connection,
        capabilities,
        mariadb_capabilities,
        collation,
        status,
        version,
        *first,
        &second,
        plugin,
    );
    put_if(alloc, out, !has_zero(version) && !has_zero(plugin), &packet)
}
