//! Replies of a server payload by payload: the event that each payload is, and what comes next.
//!
//! `mysql_replies` and `mysql_connection_state` call it. A user names its items by
//! `mysql_connection`. It reads payloads; packets are cut by others.
//!
//!     query ──► Ok | Error | FileRequest
//!           └─► ColumnCount ► Column.. ► ColumnsEnd ► Row.. ► RowsEnd ──► the next result, if any
//!
//!     let mut reader = EventReader::new(alloc, ReplyKind::Text, capabilities, None);
//!     let event = reader.read(payload)?;       // Err(ReplyFault): the same from then on
//!     let turn = reader.turn();                // Turn::Nobody: the reply is whole
#![tactic(auto)]

mod awaited;
mod behind;
pub mod context;
mod counts;
pub mod event;
pub mod fault;
mod forms;
pub mod laws;
mod next;
pub mod packets;
mod reader;
pub mod rows;
mod standing;
mod state;
mod steps;

pub use awaited::{ColumnGroup, Due, Turn};
pub use context::{Context, ReplyKind};
pub use event::ReplyEvent;
pub use fault::ReplyFault;
pub use next::next_event;
pub use reader::EventReader;
