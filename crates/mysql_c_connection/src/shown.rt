//! What C sees of a connection beside its events.

/// The state of a connection. The fault is its code, or 0.
#[repr(C)]
#[derive(Clone, Copy)]
pub struct ShownStanding {
    pub turn: u32,
    pub phase: u32,
    pub reason: u32,
    pub capabilities: u32,
    pub mariadb_capabilities: u32,
    pub fault: u32,
    pub fault_side: u32,
    pub fault_byte: u64,
    pub client_room: usize,
    pub server_room: usize,
    pub held: usize,
}

/// How a connection ends: its kind, and of what the kind has.
///
/// The kinds are 0 over, for a reason, 1 whole, 2 unfinished, on a side, 3 a fault, 4 unread.
#[repr(C)]
#[derive(Clone, Copy)]
pub struct ShownConnectionEnd {
    pub kind: u32,
    pub reason: u32,
    pub side: u32,
    pub fault: u32,
    pub byte: u64,
}
