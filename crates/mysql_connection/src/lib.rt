//! Whole connections, read and put: both streams in, events out, and back; and each payload by
//! itself.
//!
//! A public crate. A client, a server, an auditor and a replay each use one [`Connection`]. Who
//! frames packets by himself calls what reads and puts one payload, by the capabilities in force.
//!
//! | payloads of | read by | put by |
//! |---|---|---|
//! | logging in | [`read_greeting`], [`read_response`], .. | [`put_greeting`], .. |
//! | commands | [`Command::read`] | [`put_command`] |
//! | a reply | [`EventReader`] | [`put_event`] |
//!
//!     let mut connection = Connection::new(alloc, limits);
//!     connection.feed(Side::Client, piece)?;
//!     let event = connection.next_event()?;              // None until a payload is whole
//!
//!     let command = Command::read(alloc, capabilities, parameters, payload)?;
//!     write_command(&mut output, &command, Secrets::Hidden)?;   // Execute id=3 flags=0 ..
//!     let event = reader.read(payload)?;                  // by an EventReader of the reply
#![tactic(auto)]

pub mod laws;

pub use mysql_authentication::{
    AuthenticationEvent, GreetingEvent, LoginFault, LoginRefusal, LoginResponse, ResponseEvent,
    capabilities_in_force, put_authentication, put_greeting, put_response, read_authentication,
    read_greeting, read_response,
};
pub use mysql_columns::{ExtendedColumn, ListedColumn};
pub use mysql_command_writer::{CommandRefusal, put_command};
pub use mysql_commands::{
    Attribute, BoundType, BulkExecution, BulkValue, Capabilities, CapabilityFlags, Command,
    Execution, MariadbCapabilities, ParameterType, Reply, StatementParameters, UnclearCells,
    UnclearValues,
};
pub use mysql_connection_lines::{
    write_end, write_event, write_event_as, write_lent_row, write_lent_row_as,
};
pub use mysql_connection_machine::{
    Connection, ConnectionFault, End, FeedRefusal, LentEvent, PacketsRefusal, PayloadRefusal,
    PutRefusal, SetsRefusal,
};
pub use mysql_connection_recoding::{RecodingRefusal, StatementIds};
pub use mysql_connection_rules::{Fault, Limits, Reason, Side};
pub use mysql_connection_state::{Event, Phase};
pub use mysql_connection_statements::{Statement, Statements};
pub use mysql_connection_writer::BadEvent;
pub use mysql_event_lines::{
    Form, Secrets, Texts, write_authentication_event, write_command, write_greeting_event,
    write_reply_event, write_response_event, write_row_ref,
};
pub use mysql_executions::{Refused, read_bulk_types, read_execution_types};
pub use mysql_reply_event_writer::{ReplyPutRefusal, put_event};
pub use mysql_reply_events::{Context, EventReader, ReplyEvent, ReplyFault, ReplyKind, Turn};
pub use mysql_session_modes::{ASK_SESSION_MODE, SessionMode};
