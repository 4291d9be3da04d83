//! Types of parameters, and executions that carry them.

use crate::unclear::UnclearValues;
use mysql_bytes::ByteString;
use mysql_cells::Value;
use mysql_const::{ColumnType, CursorType};

/// A parameter's type, and whether its whole numbers have no sign.
///
/// Follows "COM_STMT_EXECUTE" (parameter_type) of the client/server protocol documentation.
#[derive(Clone, Copy, Debug, PartialEq, Eq)]
pub struct ParameterType {
    /// The type.
    pub column_type: ColumnType,
    /// Whether whole numbers of it have no sign.
    pub unsigned: bool,
}

/// A type as a command carries it, with the parameter's name.
///
/// Follows "COM_STMT_EXECUTE" (parameter_type, parameter_name) of the client/server protocol
/// documentation.
#[derive(Debug, PartialEq, Eq, Drop)]
pub struct BoundType {
    /// The type and its sign.
    pub parameter_type: ParameterType,
    /// The parameter's name; empty where query attributes aren't in force.
    pub name: ByteString,
}

/// An attribute of a query or of an execution: a parameter beyond those of the statement.
///
/// Follows "COM_QUERY" of the client/server protocol documentation.
#[derive(Debug, PartialEq, Eq, Drop)]
pub struct Attribute {
    /// Its type and its name.
    pub bound_type: BoundType,
    /// Its value.
    pub value: Value,
}

/// An execution of a prepared statement.
///
/// Servers run it with any unnamed flags and any iteration count, and read no further than its last
/// value.
///
/// Follows "COM_STMT_EXECUTE" of the client/server protocol documentation.
#[derive(Debug, PartialEq, Eq, Drop)]
pub struct Execution {
    /// The statement's id.
    pub statement: u32,
    /// The cursor that is asked for.
    pub cursor: CursorType,
    /// Whether the flags say that the number of parameters is given (PARAMETER_COUNT_AVAILABLE).
    pub count_available: bool,
    /// The flags that have no name, none of a client library's.
    pub nameless_flags: u8,
    /// The iteration count: 1 of each client library.
    pub iterations: u32,
    /// The types of the statement's parameters, where the execution carries them.
    pub types: Option<Vec<BoundType>>,
    /// What the statement's parameters hold: NULL, a value, or the long data that was sent before.
    pub parameters: Vec<Value>,
    /// The parameters beyond those of the statement.
    pub attributes: Vec<Attribute>,
    /// The bytes behind the last value, none of a client library's.
    pub rest: ByteString,
    /// The values that servers read each their way, none of a client library's. It says how the
    /// payload spells them: what is put is spelled so that each server reads it alike, where it can be.
    pub unclear: UnclearValues,
}
