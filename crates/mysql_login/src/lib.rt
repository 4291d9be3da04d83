//! Packets of logging in and of replication: the public crate of both.
//!
//! A user lists it. The crates of connections use it, and the library for C calls it. The command
//! that logs another user in, [`ComChangeUser`], is its own; the rest is passed on.
//!
//! | packets | crate below |
//! |---|---|
//! | the server's greeting | `mysql_handshake` |
//! | the client's answer, with its attributes | `mysql_handshake_response` |
//! | data of a plugin, a switch of plugins | `mysql_auth` |
//! | a replica's requests, sets of GTIDs | `mysql_replication` |
//!
//!     let greeting: HandshakePacket = ParseBuf(payload).parse(alloc, ())?;
//!     let answer: HandshakeResponse = ParseBuf(payload).parse(alloc, ())?;
//!     let user = answer.user();
#![tactic(auto)]

mod change_in_force;
mod change_user;
pub mod laws;

pub use crate::change_user::{
    ComChangeUser, ComChangeUserHeader, ComChangeUserMoreData, InvalidComChangeUserHeader,
};
pub use bitflags::Flags;
pub use mysql_auth::{
    AuthMoreData, AuthMoreDataHeader, AuthNextFactor, AuthNextFactorHeader, AuthPlugin,
    AuthPluginData, AuthSwitchRequest, AuthSwitchRequestHeader, InvalidAuthMoreDataHeader,
    InvalidAuthNextFactorHeader, InvalidAuthSwitchRequestHeader, InvalidPublicKeyRequest,
    InvalidPublicKeyResponse, OldAuthSwitchRequest, PublicKeyRequest, PublicKeyRequestHeader,
    PublicKeyResponse, PublicKeyResponseHeader, parse_parsec_salt,
};
pub use mysql_buf::ParseBuf;
pub use mysql_const::{Capabilities, CapabilityFlags, MariadbCapabilities, StatusFlags};
pub use mysql_field_constants::Either;
pub use mysql_fields::{MyDeserialize, MySerialize, ParseExt, Readable, WireError};
pub use mysql_handshake::{HandshakePacket, in_force, offered_by};
pub use mysql_handshake_response::{ConnectAttributes, HandshakeResponse, SslRequest};
pub use mysql_replication::{
    BinlogDumpFlags, BinlogRequest, ComBinlogDump, ComBinlogDumpGtid, ComBinlogDumpGtidHeader,
    ComBinlogDumpHeader, ComRegisterSlave, ComRegisterSlaveHeader, ComTableDump,
    ComTableDumpHeader, GnoInterval, InvalidComBinlogDumpGtidHeader, InvalidComBinlogDumpHeader,
    InvalidComRegisterSlaveHeader, InvalidComTableDumpHeader, InvalidSemiSyncAckPacketPacketHeader,
    InvalidTag, SemiSyncAckPacket, SemiSyncAckPacketPacketHeader, Sid, SidBlock, SidError, Tag,
    UUID_LEN, UnknownBinlogDumpFlags,
};
