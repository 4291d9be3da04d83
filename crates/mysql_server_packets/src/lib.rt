//! What a server answers besides rows and OK packets: errors, progress reports, requests for files,
//! statement packets.
//!
//! The crates of replies and of logging in use it. A user names its items by `mysql_packets`.
//!
//! | packet | first byte | type |
//! |---|---|---|
//! | an error | FF | [`ServerError`], in [`ErrPacket`] |
//! | MariaDB's progress report | FF, code FFFF | [`ProgressReport`], in [`ErrPacket`] |
//! | a request for a file | FB | [`LocalInfilePacket`] |
//! | the answer to a prepare | 00 | [`StmtPacket`] |
//!
//!     let packet: ErrPacket = ParseBuf(payload).parse(alloc, capabilities)?;
//!     if packet.is_error() {
//!         let code = packet.server_error().error_code();
//!     }
#![tactic(auto)]

pub mod err_packet;
pub mod headers;
pub mod laws;
pub mod local_infile;
pub mod progress_report;
pub mod server_error;
pub mod statement;

pub use err_packet::ErrPacket;
pub use headers::{
    ErrPacketHeader, InvalidErrPacketHeader, InvalidLocalInfileHeader, InvalidSqlStateMarker,
    InvalidStmtPacketStatus, LocalInfileHeader, SqlStateMarker, StmtPacketStatus,
};
pub use local_infile::LocalInfilePacket;
pub use progress_report::ProgressReport;
pub use server_error::{ServerError, SqlState};
pub use statement::StmtPacket;
