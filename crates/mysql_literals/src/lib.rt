//! Values as literals of a query.
//!
//! The crates of parameter sets and of the library for C use it. A user names most of it by
//! `mysql_values`.
//!
//!     let text = Value::Int(-1).as_sql(alloc, false)?;                             // -1
//!     push_literal_in(&mut out, &value, mode, Spelling::Quoted)?;
#![tactic(auto)]

pub mod as_sql;
mod date_literal;
mod quoting;

pub use as_sql::{AsSql, AsSqlError};
