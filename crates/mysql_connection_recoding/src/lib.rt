//! A client's commands that were read on one connection, for another one on which its statements
//! have other ids.
//!
//!     ids.prepared(own, other)?;                  // as the two servers answered a prepare
//!     let command = ids.recode(command, types)?;  // the same command, by the other server's ids
//!
//! A proxy calls [`StatementIds`]. The laws in `laws` say that the command says the same. Those in
//! `content_laws` say that commands about one prepared statement say what `receive` reads of them;
//! `mysql_connection_contents` takes these over to whole connections.
#![tactic(auto)]

pub mod content_laws;
pub mod laws;
pub mod refusal;
pub mod statement_ids;
mod types;

pub use refusal::RecodingRefusal;
pub use statement_ids::StatementIds;
