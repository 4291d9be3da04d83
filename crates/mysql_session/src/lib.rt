//! Parameter sets of one query as streams of commands, and back; and a server's replies.
//!
//! A public crate, for who sends by one query or reads what one query's stream carries.
//! `mysql_connection` is for whole connections.
//!
//! | you have | you want | call |
//! |---|---|---|
//! | parameter sets | the commands that carry them | [`send`], [`send_values`], [`Query`] |
//! | a stream of commands | the sets that it carries | [`Receiver`], [`receive`] |
//! | a stream of commands | the same sets in one form | [`Recoder`], [`recode`] |
//! | bytes of a reply | its results and rows | [`ReplyReader`], [`read_reply`] |
//! | results | a reply's bytes | [`ReplyWriter`], [`write_reply`] |
//!
//!     let mut sets = Vec::new(alloc);
//!     sets.push((1u32, "it's").into_params(alloc)?)?;
//!     send(alloc, query, &sets, Road::Execute, 1, 1 << 24, &mut out)?;
//!     let mut receiver = Receiver::new(alloc, query, 1, 1 << 24)?;
//!     receiver.feed(&out)?;
//!     let audit = receiver.finish();      // audit.sets: one set; audit.end: End::Whole
#![tactic(auto)]

pub mod laws;
mod objects;
mod query;
mod sender;
mod wrong_count;

pub use bitflags::Flags;
pub use mysql_command_rules::{Refusal, Road, SendToError};
pub use mysql_const::{CapabilityFlags, StatusFlags};
pub use mysql_convert::{
    FromValue, FromValueError, Intermediate, IntoParams, ParseIr, ToValue, ToValueError,
    from_value, from_value_opt,
};
pub use mysql_from_row::{
    FromRow, FromRowError, FromRowRef, FromValueRef, RowConversionError, RowExt, RowRefExt,
    SingleValue, SingleValueRef, from_cell, from_cell_ref, from_row, from_row_opt, from_row_ref,
};
pub use mysql_packets::{
    Column, LocalInfilePacket, OkPacket, ProgressReport, ServerError, SqlState, StmtPacket,
};
pub use mysql_receive::{Audit, End, Receiver, ReceiverError, StreamFault, receive, receive_in};
pub use mysql_recoding::{
    RecodeError, Recoder, recode, recode_in, send_contents, send_contents_in,
};
pub use mysql_replies::{
    Reply, ReplyEnd, ReplyFault, ReplyKind, ReplyReader, ReplyResult, read_reply,
};
pub use mysql_reply_writer::{ReplyRefusal, ReplyWriter, write_reply};
pub use mysql_row_refs::{
    RowError, RowFormat, RowReader, RowReader as RowLender, RowRef, RowRef as LentRow, StoredRows,
    ValueRef,
};
pub use mysql_rows::{ColumnIndex, Row};
pub use mysql_session_modes::{ASK_SESSION_MODE, SessionMode};
pub use mysql_values::{
    BindError, ByteString, Content, MissingNamedParameterError, Mode, Params, ParamsConfusionError,
    ParamsError, SetError, Spelling, Value, is_safe_to_quote,
};
pub use mysql_wire::{ChunkHeader, PacketCodecError, PacketReader, packet_to_chunks};
pub use objects::send_values;
pub use query::Query;
pub use sender::send;
pub use wrong_count::WrongCount;
