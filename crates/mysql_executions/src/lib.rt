//! Executions and bulk executions of a prepared statement, by what is in force of its parameters.
//!
//! A payload may leave its types to an earlier one, and its long values to packets before it. So
//! both are kept in [`StatementParameters`]. `mysql_commands` and `mysql_connection_statements`
//! call this; a user names its types by `mysql_connection`.
//!
//!     command           read by                    what is in force behind it
//!     LONG_DATA         its id, place and bytes    add_long_data
//!     EXECUTE           read_execution             execute, take_back behind an error
//!     BULK_EXECUTE      read_bulk_execution        execute, take_back behind an error
//!     RESET                                        reset
//!
//!     let mut parameters = StatementParameters::new(alloc, 2);
//!     let execution = read_execution(alloc, capabilities, &parameters, body)?;
//!     let before = parameters.execute(alloc, &types)?;
#![tactic(auto)]

pub mod attribute_reading;
pub mod bulk;
pub mod bulk_reading;
pub mod carried_types;
pub mod execution_reading;
mod fields;
pub mod laws;
mod not_read;
pub mod refused;
mod skipping;
pub mod statement;
mod type_reading;
pub mod types;
pub mod unclear;
mod value_reading;
mod waiting;

pub use attribute_reading::read_query_attributes;
pub use bulk::{BulkExecution, BulkValue};
pub use bulk_reading::read_bulk_execution;
pub use carried_types::{read_bulk_types, read_execution_types};
pub use execution_reading::read_execution;
pub use refused::Refused;
pub use statement::StatementParameters;
pub use types::{Attribute, BoundType, Execution, ParameterType};
pub use unclear::{UnclearCells, UnclearValues};
