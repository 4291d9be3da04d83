//! Commands of prepared statements: executions, long data, closing and resetting.
//!
//! `mysql_send`, `mysql_execution_writer` and the library for C use it. A user names its items by
//! `mysql_packets`. Executions are read by `mysql_executions`.
//!
//! | command | number | type |
//! |---|---|---|
//! | COM_STMT_EXECUTE | 23 | [`ComStmtExecuteRequest`], [`put_execution`] |
//! | COM_STMT_SEND_LONG_DATA | 24 | [`ComStmtSendLongData`] |
//! | COM_STMT_CLOSE | 25 | [`ComStmtClose`] |
//! | COM_STMT_RESET | 26 | [`ComStmtReset`] |
//!
//!     let builder = ComStmtExecuteRequestBuilder::new(stmt_id);
//!     let (request, apart) = builder.build(alloc, &values)?;   // apart: texts go as long data
//!     request.serialize(&mut payload)?;
#![tactic(auto)]

pub mod execute;
pub mod has_value;
pub mod headers;
mod in_room;
pub mod laws;
pub mod long_data;
pub mod null_bits;
pub mod statement_alone;

pub use execute::{
    ComStmtExecuteRequest, ComStmtExecuteRequestBuilder, put_execution, put_number, put_text,
    size_within, size_without_floats,
};
pub use has_value::HasValue;
pub use headers::{
    ComStmtCloseHeader, ComStmtExecuteHeader, ComStmtResetHeader, ComStmtSendLongDataHeader,
    InvalidComStmtCloseHeader, InvalidComStmtExecuteHeader, InvalidComStmtResetHeader,
    InvalidComStmtSendLongDataHeader, InvalidIterationCount, IterationCount,
};
pub use long_data::ComStmtSendLongData;
pub use null_bits::put_null_bitmap;
pub use statement_alone::{ComStmtClose, ComStmtReset, StatementAlone};
