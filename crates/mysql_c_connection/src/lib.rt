//! The part of the library for C that reads whole connections: what its exports do.
//!
//! `mysql_c` exports its functions. A connection has a handle of its kind: it is a connection, or
//! nothing. [`connection_next`] fills one struct for events of all kinds; what has lists is asked
//! for behind it.
//!
//! | of the event that came last | call |
//! |---|---|
//! | its line of text | [`connection_line`] |
//! | a cell, a value, an attribute of the login, a column | [`connection_value`] and others |
//!
//!     let code = connection_feed(alloc, &mut handle, side, piece);
//!     let code = connection_next(alloc, &mut handle, &mut shown);
#![tactic(auto)]

mod calls;
mod code;
mod columns;
mod events;
mod handle;
mod lent;
mod object;
mod putting;
mod shown;
mod standing;
mod text;
mod unclear;
mod values;

pub use calls::{
    connection_close, connection_feed, connection_finish, connection_line, connection_new,
    connection_next,
};
pub use code::ConnectionCode;
pub use columns::connection_column;
pub use handle::Handle;
pub use lent::connection_next_lent;
pub use mysql_connection_lines::{Form, Secrets};
pub use object::{Object, OpenConnection, WrittenLines};
pub use putting::{
    connection_after_login, connection_put, connection_put_packets, connection_put_sets,
};
pub use shown::{ShownConnectionEnd, ShownStanding};
pub use standing::{
    connection_rest, connection_session, connection_standing, connection_statement,
};
pub use text::connection_code_text;
pub use unclear::connection_unclear;
pub use values::{connection_attribute, connection_value};
