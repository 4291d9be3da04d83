//! What a replica asks for.

ghost use Rattle.std.specs.Prelude.{◌≡◌, map};
ghost use Rattle.mysql_replication.specs.Sids.{sid_view};
ghost use Rattle.mysql_replication.specs.Views.{binlog_dump_gtid_view, register_slave_view};
ghost use Rattle.mysql_c_commands.specs.Gtids.{PutsBySids};
ghost use Rattle.mysql_c_commands.specs.Putting.{Puts, PutsIf};
ghost use Rattle.mysql_c_commands.specs.Replication.{Dump, Replica, dump_payload, is_replica};
ghost use Rattle.mysql_c_commands.specs.Replication.{replica_fields, replica_payload, sids_fields, sids_payload};

use crate::gtids::sids_at;
use crate::putting::{put, put_if};
use mysql_c_handles::Handle;
use mysql_login::{BinlogDumpFlags, ComBinlogDump, ComBinlogDumpGtid, ComRegisterSlave, Sid};
use std::alloc::Global;
use std::borrow::CowSlice;

/// What a replica says of itself. Its rank and its master's id are 0.
fn registration<'a>(
    server: u32,
    host: &'a [u8],
    user: &'a [u8],
    password: &'a [u8],
    port: u16,
) -> ComRegisterSlave<'a>
    ensures { register_slave_view result ≡
        replica_fields (record {
          server = server;
          host = host.now;
          user = user.now;
          password =
              password.now;
          port = port;
        }) }
{
    ComRegisterSlave::new(server)
        .with_hostname(CowSlice::Borrowed(host))
        .with_user(CowSlice::Borrowed(user))
        .with_password(CowSlice::Borrowed(password))
        .with_port(port)
}

/// Appends to the bytes that a handle refers to what a replica says of itself.
///
/// Promise: exactly the bytes of the packet's layout are appended, or the bytes stay (`PutsIf`).
pub fn register_replica_put(
    alloc: Global,
    out: &mut Handle,
    server: u32,
    host: &[u8],
    user: &[u8],
    password: &[u8],
    port: u16,
) -> u32
    ensures { let r : Replica =
        record {
          server = server;
          host = host.now;
          user = user.now;
          password = password.now;
          port =
              port;
        } in PutsIf (is_replica r) (replica_payload r) out.old.object result out.new.object }
{
    let packet = registration(server, host, user, password, port);
    let short = host.len() <= 255 && user.len() <= 255 && password.len() <= 255;
    put_if(alloc, out, short, &packet)
}

/// Appends the request for the binary log from a position of a file.
///
/// It goes to the bytes that a handle refers to.
///
/// Promise: exactly the bytes of the packet's layout are appended, or the bytes stay (`Puts`).
pub fn binlog_dump_put(
    alloc: Global,
    out: &mut Handle,
    server: u32,
    position: u32,
    flags: u16,
    file: &[u8],
) -> u32
    ensures { Puts (dump_payload
        (record { server = server; position = position; flags = flags; file = file.now }))
        out.old.object result out.new.object }
{
    let packet = ComBinlogDump::new(server)
        .with_pos(position)
        .with_flags(BinlogDumpFlags(flags))
        .with_filename(CowSlice::Borrowed(file));
    put(alloc, out, &packet)
}

/// The request for the binary log without the transactions of these sets.
fn dump_by_sids<'a>(
    server: u32,
    position: u64,
    flags: u16,
    file: &'a [u8],
    sids: &'a [Sid<'a>],
) -> ComBinlogDumpGtid<'a>
    ensures { binlog_dump_gtid_view result ≡
        sids_fields (record {
          server = server;
          position = position;
          flags = flags;
          file =
              file.now;
        }) (map sid_view sids.now) }
{
    ComBinlogDumpGtid::new(server)
        .with_pos(position)
        .with_filename(CowSlice::Borrowed(file))
        .with_sids(CowSlice::Borrowed(sids))
        .with_flags(BinlogDumpFlags(flags))
}

/// Appends the request for the binary log without the transactions that a text's sets name.
///
/// It goes to the bytes that a handle refers to.
///
/// Promise: exactly the bytes of the packet's layout are appended, or the bytes stay
/// (`PutsBySids`).
pub fn binlog_dump_gtid_put(
    alloc: Global,
    out: &mut Handle,
    server: u32,
    position: u64,
    flags: u16,
    file: &[u8],
    gtids: &[u8],
) -> u32
    ensures { let dump : Dump =
        record { server = server; position = position; flags = flags; file = file.now } in
        PutsBySids gtids.now (sids_payload dump) out.old.object result out.new.object }
{
    match sids_at(alloc, gtids) {
        Ok(sids) => put(
            alloc,
            out,
            &dump_by_sids(server, position, flags, file, &sids),
        ),
        Err(code) => code.number(),
    }
}
