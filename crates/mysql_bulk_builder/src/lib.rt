//! Bulk execute requests of MariaDB: rows cut into requests, and one request, read and written.
//!
//! `ComStmtBulkExecuteRequestBuilder` takes rows one by one and gives the requests, each as full as
//! the limit lets it be. `bulk_cut` says which rows go into which request. Sending in bulk calls it,
//! and a user who sends requests alone.
//!
//! | modules | of what |
//! |---|---|
//! | `request`, `headers`, `param_type`, `param_value` | one request, its types and its values |
//! | `reading` | one row of a request, read |
//! | `builder`, `requests`, `search`, `row_size` | rows cut into requests |
//! | `first_values`, `kinds` | the types of columns, by their first values |
#![tactic(auto)]

pub mod builder;
pub mod error;
pub mod first_values;
mod flat;
mod given;
pub mod kinds;
pub mod laws;
pub mod requests;
mod row_size;
pub mod search;

pub use builder::ComStmtBulkExecuteRequestBuilder;
pub use error::BulkExecuteRequestBuilderError;
pub use first_values::{no_first_values, put_first_values};
pub use kinds::{mixed_kinds, place_of_other};
pub use requests::BulkRequests;
pub use search::{BulkCutError, BulkPart, bulk_cut};

mod flat_values;
pub mod headers;
pub mod param_type;
pub mod param_value;
pub mod reading;
pub mod request;
pub mod request_error;
pub mod request_laws;
mod request_reading;

pub use headers::{ComStmtBulkExecuteHeader, InvalidComStmtBulkExecuteHeader};
pub use param_type::StmtBulkExecuteParamType;
pub use param_value::{StmtBulkExecuteParamValue, StmtBulkExecuteParamValues};
pub use reading::read_bulk_row;
pub use request::ComStmtBulkExecuteRequest;
pub use request_error::BulkExecuteRequestError;
