//! What a handle of a connection refers to.

use mysql_connection_machine::{Connection, End};
use mysql_connection_state::Event;
use std::alloc::Global;

/// The lines of an event, or of an end: a line of each form, empty before it is asked for.
#[derive(Drop)]
pub struct WrittenLines {
    pub plain: Vec<u8>,
    pub with_secrets: Vec<u8>,
    pub with_texts: Vec<u8>,
    pub with_both: Vec<u8>,
}

impl WrittenLines {
    /// None.
    pub fn new(alloc: Global) -> WrittenLines {
        WrittenLines {
            plain: Vec::new(alloc),
            with_secrets: Vec::new(alloc),
            with_texts: Vec::new(alloc),
            with_both: Vec::new(alloc),
        }
    }

    /// Lets them go.
    pub fn clear(&mut self) {
        self.plain.clear();
        self.with_secrets.clear();
        self.with_texts.clear();
        self.with_both.clear();
    }
}

/// A connection, and the event that was told last.
///
/// Beside them it has how the connection ended, once it was asked, and the lines of the event or of
/// the end.
pub struct OpenConnection {
    pub connection: Connection,
    pub event: Option<Event>,
    pub end: Option<End>,
    pub lines: WrittenLines,
}

// Written out, so that who owns one lets it go in one step.
impl Drop for OpenConnection {
    fn drop(self) {
        let OpenConnection {
            connection: _connection,
            event: _event,
            end: _,
            lines: _lines,
        } = self;
    }
}

/// What a handle refers to.
pub enum Object {
    /// Nothing.
    Empty,
    /// A connection.
    Open(OpenConnection),
}

// Written out for the same reason.
impl Drop for Object {
    fn drop(self) {
        match self {
            Object::Empty => {}
            Object::Open(_open) => {}
        }
    }
}
