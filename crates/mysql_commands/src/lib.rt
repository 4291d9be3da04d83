//! A client's commands, one enum, read from any payload.
//!
//! `mysql_connection_state` and the crates that write commands or lines use it. A user names its
//! items by `mysql_connection`. Each payload is a [`Command`]: one that isn't laid out as its
//! number says is `Other`. [`Reply`] says what a server answers to one.
//!
//!     let command = Command::read(alloc, capabilities, parameters, payload)?;
//!     match &command {
//!         Command::Query { sql, .. } => audit(sql.as_slice()),
//!         Command::Execute(execution) => bind(execution),
//!         _ => (),
//!     }
#![tactic(auto)]

pub mod command;
mod owned;
mod reading;
pub mod reply;

pub use command::Command;
pub use mysql_const::{Capabilities, CapabilityFlags, MariadbCapabilities};
pub use mysql_executions::{
    Attribute, BoundType, BulkExecution, BulkValue, Execution, ParameterType, StatementParameters,
    UnclearCells, UnclearValues,
};
pub use reply::Reply;
