//! Streams cut into packets, logging in, and what a replica asks for.

ghost use Rattle.std.specs.Prelude.{◌≡◌, ◌≢◌, ◌++◌, ◌∷◌, []};
ghost use Rattle.mysql_wire.specs.Incoming.{incoming_at};
ghost use Rattle.mysql_c_handles.specs.Bytes.{OfBytes};
ghost use Rattle.mysql_c_commands.specs.Greetings.{Greeting, ReadsGreeting, greeting_payload, is_greeting};
ghost use Rattle.mysql_c_commands.specs.Gtids.{PutsBySids};
ghost use Rattle.mysql_c_commands.specs.Logins.{Login, ReadsLogin, is_login, login_payload};
ghost use Rattle.mysql_c_commands.specs.Packets.{FramesIn, IsPackets, IsReadOnIn, OfPackets, RestartsIn, ShowsPayload};
ghost use Rattle.mysql_c_commands.specs.Putting.{Puts, PutsIf};
ghost use Rattle.mysql_c_commands.specs.Replication.{Dump, Replica, dump_payload, is_replica, replica_payload};
ghost use Rattle.mysql_c_commands.specs.Replication.{sids_payload};

use mysql_c_commands::{
    ShownGreeting, ShownLogin, binlog_dump_gtid_put, binlog_dump_put, greeting_put, greeting_read,
    login_put, login_read, packet_put, packets_feed, packets_new, packets_payload, packets_restart,
    register_replica_put,
};
use mysql_c_handles::Handle;
use std::alloc::Global;

/// Makes the handle refer to a reader of packets, of which the first chunk has this number.
#[unsafe(no_mangle)]
pub extern "C" fn mysql_session_packets_new(
    alloc: Global,
    handle: &mut Handle,
    first: u8,
    limit: usize,
) -> u32
    ensures made { result ≡ 0 → IsPackets handle.new.object (λ r. r ≡ incoming_at first limit) }
    ensures kept { result ≢ 0 → (result ≡ 1) × (handle.new.object ≡ handle.old.object) }
{
    packets_new(alloc, handle, first, limit)
}

/// Reads on to the end of the next packet. Tells how many bytes of the piece were used, and whether
/// a payload is whole then.
#[unsafe(no_mangle)]
pub extern "C" fn mysql_session_packets_feed(
    alloc: Global,
    handle: &mut Handle,
    piece: &[u8],
    used: &mut usize,
    whole: &mut bool,
) -> u32
    ensures { OfPackets handle.old.object result handle.new.object
        (IsReadOnIn piece.now used.new whole.new result handle.new.object) }
{
    packets_feed(alloc, handle, piece, used, whole)
}

/// Shows the payload that is whole. It stays where it is until the next call on the handle.
#[unsafe(no_mangle)]
pub extern "C" fn mysql_session_packets_payload(
    alloc: Global,
    handle: &mut Handle,
    data: &mut *const u8,
    len: &mut usize,
) -> u32
    ensures { OfPackets handle.old.object result handle.new.object (ShowsPayload result len.new handle.new.object) }
{
    packets_payload(alloc, handle, data, len)
}

/// The next packet begins at the number 0. Where bytes of one came nothing changes.
#[unsafe(no_mangle)]
pub extern "C" fn mysql_session_packets_restart(alloc: Global, handle: &mut Handle) -> u32
    ensures { OfPackets handle.old.object result handle.new.object (RestartsIn result handle.new.object) }
{
    packets_restart(alloc, handle)
}

/// Appends a payload to the bytes that a handle refers to, framed in chunks.
///
/// The first has this number, which goes on behind the last one.
#[unsafe(no_mangle)]
pub extern "C" fn mysql_session_packet_put(
    alloc: Global,
    out: &mut Handle,
    payload: &[u8],
    number: &mut u8,
    limit: usize,
) -> u32
    ensures framed { OfBytes out.old.object result out.new.object
        (FramesIn payload.now limit number.old number.new result out.new.object) }
    ensures kept { result ≢ 0 → number.new ≡ number.old }
{
    packet_put(alloc, out, payload, number, limit)
}

/// Reads the payload of a server's first packet.
#[unsafe(no_mangle)]
pub extern "C" fn mysql_session_greeting_read(
    alloc: Global,
    payload: &[u8],
    greeting: &mut ShownGreeting,
) -> u32
    ensures { ReadsGreeting payload.now result greeting.new }
{
    greeting_read(alloc, payload, greeting)
}

/// Appends the payload of a server's first packet to the bytes that a handle refers to.
#[unsafe(no_mangle)]
pub extern "C" fn mysql_session_greeting_put(
    alloc: Global,
    out: &mut Handle,
    connection: u32,
    capabilities: u32,
    mariadb_capabilities: u32,
    collation: u8,
    status: u16,
    version: &[u8],
    scramble_1: &[u8],
    scramble_2: &[u8],
    plugin: &[u8],
) -> u32
    ensures { let g : Greeting =
        record {
          connection = connection;
          capabilities = capabilities;
          mariadb_capabilities =
              mariadb_capabilities;
          collation = collation;
          status = status;
          version =
              version.now;
          scramble_1 = scramble_1.now;
          scramble_2 = scramble_2.now ++ 0 ∷ [];
          plugin =
              plugin.now;
        } in
        PutsIf (is_greeting scramble_1.now scramble_2.now version.now plugin.now)
        (greeting_payload g) out.old.object result out.new.object }
{
    greeting_put(
        alloc,
        out,
        connection,
        capabilities,
        mariadb_capabilities,
        collation,
        status,
        version,
        scramble_1,
        scramble_2,
        plugin,
    )
}

/// Reads the payload of a client's answer to a greeting.
#[unsafe(no_mangle)]
pub extern "C" fn mysql_session_login_read(
    alloc: Global,
    payload: &[u8],
    login: &mut ShownLogin,
) -> u32
    ensures { ReadsLogin payload.now result login.new }
{
    login_read(alloc, payload, login)
}

/// Appends the payload of a client's answer to a greeting to the bytes that a handle refers to.
#[unsafe(no_mangle)]
pub extern "C" fn mysql_session_login_put(
    alloc: Global,
    out: &mut Handle,
    capabilities: u32,
    mariadb_capabilities: u32,
    max_packet_size: u32,
    user: &[u8],
    response: &[u8],
    database: &[u8],
    plugin: &[u8],
) -> u32
    ensures { let login : Login =
        record {
          capabilities = capabilities;
          mariadb_capabilities =
              mariadb_capabilities;
          max_packet_size = max_packet_size;
          user = user.now;
          response =
              response.now;
          database = database.now;
          plugin = plugin.now;
        } in
        PutsIf (is_login capabilities user.now response.now database.now plugin.now)
        (login_payload login) out.old.object result out.new.object }
{
    login_put(
        alloc,
        out,
        capabilities,
        mariadb_capabilities,
        max_packet_size,
        user,
        response,
        database,
        plugin,
    )
}

/// Appends to the bytes that a handle refers to what a replica says of itself.
#[unsafe(no_mangle)]
pub extern "C" fn mysql_session_register_replica_put(
    alloc: Global,
    out: &mut Handle,
    server: u32,
    host: &[u8],
    user: &[u8],
    password: &[u8],
    port: u16,
) -> u32
    ensures { let r : Replica =
        record {
          server = server;
          host = host.now;
          user = user.now;
          password = password.now;
          port =
              port;
        } in PutsIf (is_replica r) (replica_payload r) out.old.object result out.new.object }
{
    register_replica_put(alloc, out, server, host, user, password, port)
}

/// Appends the request for the binary log from a position of a file.
///
/// It goes to the bytes that a handle refers to.
#[unsafe(no_mangle)]
pub extern "C" fn mysql_session_binlog_dump_put(
    alloc: Global,
    out: &mut Handle,
    server: u32,
    position: u32,
    flags: u16,
    file: &[u8],
) -> u32
    ensures { Puts (dump_payload
        (record { server = server; position = position; flags = flags; file = file.now }))
        out.old.object result out.new.object }
{
    binlog_dump_put(alloc, out, server, position, flags, file)
}

/// Appends the request for the binary log without the transactions that a text's sets name.
///
/// It goes to the bytes that a handle refers to.
#[unsafe(no_mangle)]
pub extern "C" fn mysql_session_binlog_dump_gtid_put(
    alloc: Global,
    out: &mut Handle,
    server: u32,
    position: u64,
    flags: u16,
    file: &[u8],
    gtids: &[u8],
) -> u32
    ensures { let dump : Dump =
        record { server = server; position = position; flags = flags; file = file.now } in
        PutsBySids gtids.now (sids_payload dump) out.old.object result out.new.object }
{
    binlog_dump_gtid_put(alloc, out, server, position, flags, file, gtids)
}
