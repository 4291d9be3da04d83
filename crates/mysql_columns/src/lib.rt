//! Columns of result sets and of prepared statements, read and written.
//!
//! The crates of rows and replies use it. A user names its items by `mysql_packets`, and [`Column`]
//! by `mysql_session` too.
//!
//! | type | it has besides |
//! |---|---|
//! | [`Column`] | names, type, flags, character set |
//! | [`ExtendedColumn`] | MariaDB's metadata: a type's name and format |
//! | [`ListedColumn`] | the default value that COM_FIELD_LIST answers |
//!
//!     let column: Column = ParseBuf(payload).parse(alloc, ())?;
//!     let name = column.name_ref();
//!     let made = Column::new(alloc, ColumnType::MYSQL_TYPE_LONG).with_name(b"id")?;
#![tactic(auto)]

pub mod column;
pub mod extended;
pub mod headers;
pub mod laws;
mod names;

pub use column::Column;
pub use extended::{ExtendedColumn, ListedColumn};
pub use headers::{
    Catalog, ColumnDefinitionCatalog, FixedLengthFieldsLen, InvalidCatalog,
    InvalidFixedLengthFieldsLen,
};
