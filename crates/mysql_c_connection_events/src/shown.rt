//! What C sees of an event, and what events of several kinds have.

ghost use Rattle.std.specs.Prelude.{◌≡◌, length};
ghost use Rattle.mysql_c_connection_events.specs.Shown.{nothing_shown};

use mysql_c_handles::start_of;

/// An event: its kind, its side, and what that kind has. `bindings/c/mysql_session.h` has the kinds.
#[repr(C)]
#[derive(Clone, Copy)]
pub struct ShownEvent {
    pub kind: u32,
    pub side: u32,
    pub statement: u32,
    pub capabilities: u32,
    pub mariadb_capabilities: u32,
    pub number: u32,
    pub flags: u32,
    pub status: u16,
    pub warnings: u16,
    pub error_code: u16,
    pub charset: u16,
    pub affected_rows: u64,
    pub last_insert_id: u64,
    pub position: u64,
    pub columns: usize,
    pub rows: usize,
    pub params: usize,
    pub attributes: usize,
    pub text: *const u8,
    pub len: usize,
    pub user: *const u8,
    pub user_len: usize,
    pub database: *const u8,
    pub database_len: usize,
    pub plugin: *const u8,
    pub plugin_len: usize,
    pub data: *const u8,
    pub data_len: usize,
    pub state: [u8; 5],
    pub state_len: usize,
    pub follows: bool,
}

/// An event of this kind and side that tells nothing.
pub fn blank(kind: u32, side: u32) -> ShownEvent
    ensures { result ≡ record (nothing_shown result) { kind = kind; side = side } }
{
    let none: &[u8] = &[];
    ShownEvent {
        kind,
        side,
        statement: 0,
        capabilities: 0,
        mariadb_capabilities: 0,
        number: 0,
        flags: 0,
        status: 0,
        warnings: 0,
        error_code: 0,
        charset: 0,
        affected_rows: 0,
        last_insert_id: 0,
        position: 0,
        columns: 0,
        rows: 0,
        params: 0,
        attributes: 0,
        text: start_of(none),
        len: 0,
        user: start_of(none),
        user_len: 0,
        database: start_of(none),
        database_len: 0,
        plugin: start_of(none),
        plugin_len: 0,
        data: start_of(none),
        data_len: 0,
        state: [0; 5],
        state_len: 0,
        follows: false,
    }
}

/// An event that tells a text.
pub fn with_text(kind: u32, side: u32, text: &[u8]) -> ShownEvent
    ensures { result ≡ record (nothing_shown result) { kind = kind; side = side; len = length text.now } }
{
    let mut shown = blank(kind, side);
    shown.text = start_of(text);
    shown.len = text.len();
    shown
}

/// An event that tells data.
pub fn with_data(kind: u32, side: u32, bytes: &[u8]) -> ShownEvent
    ensures { result ≡ record (nothing_shown result) { kind = kind; side = side; data_len = length bytes.now } }
{
    let mut shown = blank(kind, side);
    shown.data = start_of(bytes);
    shown.data_len = bytes.len();
    shown
}

/// An event that tells a number.
pub fn with_number(kind: u32, side: u32, number: u32) -> ShownEvent
    ensures { result ≡ record (nothing_shown result) { kind = kind; side = side; number = number } }
{
    let mut shown = blank(kind, side);
    shown.number = number;
    shown
}

/// An event that tells a statement's id.
pub fn with_statement(kind: u32, side: u32, statement: u32) -> ShownEvent
    ensures { result ≡ record (nothing_shown result) { kind = kind; side = side; statement = statement } }
{
    let mut shown = blank(kind, side);
    shown.statement = statement;
    shown
}
