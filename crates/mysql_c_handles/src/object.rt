//! What a handle refers to.

use mysql_columns::Column;
use mysql_executions::{Refused, StatementParameters};
use mysql_receive::{Audit, Receiver};
use mysql_recoding::Recoder;
use mysql_replies::{Reply, ReplyReader, ReplyResult};
use mysql_reply_events::EventReader;
use mysql_reply_writer::ReplyWriter;
use mysql_values::{Params, Value};
use mysql_wire::PacketReader;

/// Sets that are whole, and the values of the next one.
#[derive(Drop)]
pub struct ParameterSets {
    pub sets: Vec<Params>,
    pub open: Vec<Value>,
}

/// A reader of a reply, and the results that it returned last.
#[derive(Drop)]
pub struct ReplyInParts {
    pub reader: ReplyReader,
    pub taken: Vec<ReplyResult>,
}

/// A writer of a reply, and the columns that were given for its next result.
#[derive(Drop)]
pub struct WrittenReply {
    pub writer: ReplyWriter,
    pub columns: Vec<Column>,
}

/// An execution that may be answered by an error. It has what was in force before it, whether it
/// was a bulk execution, and how many types it carried.
#[derive(Drop)]
pub struct Unanswered {
    pub before: StatementParameters,
    pub refused: Refused,
    pub carried: usize,
}

/// What is in force of a statement's parameters, and its last execution.
#[derive(Drop)]
pub struct FollowedStatement {
    pub parameters: StatementParameters,
    pub last: Option<Unanswered>,
}

/// What a handle refers to.
#[derive(Drop)]
pub enum Object {
    /// Nothing.
    Empty,
    /// A receiver of a stream of commands.
    Receiver(Receiver),
    /// What a receiver says of the stream at its end.
    Audit(Audit),
    /// A reader of a reply, and the results that were taken of it.
    Reply(ReplyInParts),
    /// What was read of a reply at its end.
    Answer(Reply),
    /// Bytes that were written.
    Bytes(Vec<u8>),
    /// Parameter sets.
    Sets(ParameterSets),
    /// A recoder of a stream of commands.
    Recoder(Recoder),
    /// A reader of packets.
    Packets(PacketReader),
    /// A writer of a reply.
    Writer(WrittenReply),
    /// What is in force of a statement's parameters.
    Statement(FollowedStatement),
    /// A reader of a reply payload by payload.
    Events(EventReader),
}
