//! Where bytes begin.

/// The address of the first of these bytes, for C to read. No contract says how long it is good:
/// until the bytes are changed or freed.
pub fn start_of(bytes: &[u8]) -> *const u8 {
    bytes.as_ptr()
}
