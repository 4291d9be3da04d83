//! What the errors of the bytes that begin packets say.

use crate::support::{Asserting, assert_prints};
use mysql_login::{
    InvalidAuthMoreDataHeader, InvalidAuthSwitchRequestHeader, InvalidComBinlogDumpGtidHeader,
    InvalidComBinlogDumpHeader, InvalidComChangeUserHeader, InvalidComRegisterSlaveHeader,
    InvalidComTableDumpHeader, InvalidPublicKeyRequest, InvalidPublicKeyResponse,
    InvalidSemiSyncAckPacketPacketHeader,
};

#[test]
fn errors_of_headers(rt: HostRuntime) {
    let assert = Asserting(&rt);
    let alloc = rt.alloc();
    let more = "Invalid AuthMoreData header";
    assert_prints(&assert, alloc, InvalidAuthMoreDataHeader, more);
    let switch = "Invalid auth switch request header";
    assert_prints(&assert, alloc, InvalidAuthSwitchRequestHeader, switch);
    let request = "Invalid PublicKeyRequest header";
    assert_prints(&assert, alloc, InvalidPublicKeyRequest, request);
    let response = "Invalid PublicKeyResponse header";
    assert_prints(&assert, alloc, InvalidPublicKeyResponse, response);
    let user = "Invalid COM_CHANGE_USER header";
    assert_prints(&assert, alloc, InvalidComChangeUserHeader, user);
    let replica = "Invalid header for COM_REGISTER_SLAVE";
    assert_prints(&assert, alloc, InvalidComRegisterSlaveHeader, replica);
    let table = "Invalid header for COM_TABLE_DUMP";
    assert_prints(&assert, alloc, InvalidComTableDumpHeader, table);
    let dump = "Invalid header for COM_BINLOG_DUMP";
    assert_prints(&assert, alloc, InvalidComBinlogDumpHeader, dump);
    let by_gtid = "Invalid header for COM_BINLOG_DUMP_GTID";
    assert_prints(&assert, alloc, InvalidComBinlogDumpGtidHeader, by_gtid);
    let ack = "Invalid semi-sync ack packet header";
    assert_prints(&assert, alloc, InvalidSemiSyncAckPacketPacketHeader, ack);
}
