//! What C sees of the end of a stream.

/// The end of a stream: its kind, and of a fault its payload and its code.
///
/// The kinds are 0 whole, 1 in a packet, 2 with long data that waits, 3 a fault; the payload is
/// named by its number.
#[repr(C)]
#[derive(Clone, Copy)]
pub struct ShownEnd {
    pub kind: u32,
    pub fault: u32,
    pub payload: u64,
}
