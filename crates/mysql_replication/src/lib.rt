//! Replication: the packets that a replica sends, and sets of global transaction identifiers.
//!
//! A replica registers (`ComRegisterSlave`), asks for the binary log from a position or by what it has
//! (`ComBinlogDump`, `ComBinlogDumpGtid`), and acknowledges (`SemiSyncAckPacket`). A `Sid` is a source
//! with its intervals, read from a text and written. Readers of commands call these, and a replica.
#![tactic(auto)]

pub mod binlog_dump;
pub mod binlog_dump_gtid;
pub mod binlog_request;
pub mod headers;
pub mod laws;
pub mod register_slave;
pub mod semi_sync_ack;
pub mod table_dump;

pub use binlog_dump::ComBinlogDump;
pub use binlog_dump_gtid::ComBinlogDumpGtid;
pub use binlog_request::BinlogRequest;
pub use headers::{
    ComBinlogDumpGtidHeader, ComBinlogDumpHeader, ComRegisterSlaveHeader, ComTableDumpHeader,
    InvalidComBinlogDumpGtidHeader, InvalidComBinlogDumpHeader, InvalidComRegisterSlaveHeader,
    InvalidComTableDumpHeader, InvalidSemiSyncAckPacketPacketHeader, SemiSyncAckPacketPacketHeader,
};
pub use mysql_const::{BinlogDumpFlags, UnknownBinlogDumpFlags};
pub use register_slave::ComRegisterSlave;
pub use semi_sync_ack::SemiSyncAckPacket;
pub use table_dump::ComTableDump;

pub mod block;
pub mod error;
pub mod gtid_laws;
pub mod interval;
pub mod sid;
pub mod tag;

pub use block::SidBlock;
pub use error::SidError;
pub use interval::GnoInterval;
pub use sid::{Sid, UUID_LEN};
pub use tag::{InvalidTag, Tag};
