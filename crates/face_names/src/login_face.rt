//! What a user of `mysql_login` can name: each item that it passes on, by each of its paths.
//! Written by `tools/faces` from the sources. A name that the crate doesn't pass on is refused here.

use mysql_login::{
    AuthMoreData, AuthMoreDataHeader, AuthNextFactor, AuthNextFactorHeader, AuthPlugin,
    AuthPluginData, AuthSwitchRequest, AuthSwitchRequestHeader, BinlogDumpFlags, BinlogRequest,
    Capabilities, CapabilityFlags, ComBinlogDump, ComBinlogDumpGtid, ComBinlogDumpGtidHeader,
    ComBinlogDumpHeader, ComChangeUser, ComChangeUserHeader, ComChangeUserMoreData,
    ComRegisterSlave, ComRegisterSlaveHeader, ComTableDump, ComTableDumpHeader, ConnectAttributes,
    Either, Flags, GnoInterval, HandshakePacket, HandshakeResponse, InvalidAuthMoreDataHeader,
    InvalidAuthNextFactorHeader, InvalidAuthSwitchRequestHeader, InvalidComBinlogDumpGtidHeader,
    InvalidComBinlogDumpHeader, InvalidComChangeUserHeader, InvalidComRegisterSlaveHeader,
    InvalidComTableDumpHeader, InvalidPublicKeyRequest, InvalidPublicKeyResponse,
    InvalidSemiSyncAckPacketPacketHeader, InvalidTag, MariadbCapabilities, MyDeserialize,
    MySerialize, OldAuthSwitchRequest, ParseBuf, ParseExt, PublicKeyRequest,
    PublicKeyRequestHeader, PublicKeyResponse, PublicKeyResponseHeader, Readable,
    SemiSyncAckPacket, SemiSyncAckPacketPacketHeader, Sid, SidBlock, SidError, SslRequest,
    StatusFlags, Tag, UUID_LEN, UnknownBinlogDumpFlags, WireError, in_force, offered_by,
    parse_parsec_salt,
};

mod laws {
    use mysql_login::laws::{changed_users_read_again, ssl_requests_read_back};

    mod gtid {
        use mysql_login::laws::gtid::{
            parsed_sets_are_equal_by_their_texts, parsed_sets_read_back,
            sets_are_equal_by_their_parts, tags_are_equal_by_their_texts,
            tags_are_ordered_by_their_bytes,
        };
    }

    mod replication {
        use mysql_login::laws::replication::{
            acknowledgements_read_back, binlog_dumps_read_back, gtid_dumps_read_back,
            registrations_read_back, table_dumps_read_back,
        };
    }
}
