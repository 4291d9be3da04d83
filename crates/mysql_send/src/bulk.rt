//! Parameter sets of a query as bulk requests, framed.

mod at_once;
mod command;
mod list_rows;
mod requests;
mod rows;
mod target;

pub use requests::put_requests;
