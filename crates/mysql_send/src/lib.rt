//! Parameter sets of a query as the commands that carry them to a server. They are appended to a
//! list of bytes, or written to a writer.
//!
//! There is a module for each way of sending. By `text` each set is a query with literals. By
//! `execute` each is an execution of a prepared statement. In `bulk` the sets are rows of the fewest
//! bulk requests. `mysql_session` calls these, and `mysql_recoding` those by `execute`.
#![tactic(auto)]

mod bulk;
pub mod execute;
mod text;

pub use bulk::put_requests;
pub use execute::{
    Statement, put_executions, put_executions_of_values, put_made_executions, put_more_executions,
    put_prepare, write_executions,
};
pub use text::{put_made_queries, put_queries, write_queries};
