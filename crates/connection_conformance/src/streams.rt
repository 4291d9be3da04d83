//! A side's stream: how far it was fed, and how far events took it.

/// What of a side's stream wasn't fed yet, and what no event took yet.
#[derive(Clone, Copy)]
pub struct Stream<'a> {
    pub unfed: &'a [u8],
    pub untaken: &'a [u8],
}

/// How many bytes the first packet takes, where its header is there. No packet of a recording is as
/// long as a chunk, so that each is a payload.
pub fn packet_length(bytes: &[u8]) -> Option<usize> {
    match bytes {
        [low, middle, high, _, ..] => {
            let length = u32::from_le_bytes([*low, *middle, *high, 0]);
            Some((length as usize).saturating_add(4))
        }
        _ => None,
    }
}

/// The longest payload of a stream, by the headers of its packets, and the packets that are whole.
pub fn packets_of(stream: &[u8]) -> (usize, &[u8]) {
    let mut left = stream;
    let mut longest = 0;
    for _ in 0..stream.len() {
        let Some(length) = packet_length(left) else {
            break;
        };
        longest = length.saturating_sub(4).max(longest);
        let Some(behind) = left.get(length..) else {
            break;
        };
        left = behind;
    }
    let count = stream.len().saturating_sub(left.len());
    (longest, stream.get(..count).unwrap_or(stream))
}

impl<'a> Stream<'a> {
    /// How many bytes were fed that no event took.
    pub fn waiting(&self) -> usize {
        self.untaken.len().saturating_sub(self.unfed.len())
    }

    /// What follows the first packet, where that was fed whole.
    pub fn behind(&self) -> Option<&'a [u8]> {
        match packet_length(self.untaken) {
            Some(length) if length <= self.waiting() => self.untaken.get(length..),
            _ => None,
        }
    }

    /// Whether these are the bytes that were fed and that no event took.
    pub fn is_rest(&self, bytes: &[u8]) -> bool {
        bytes.len() == self.waiting() && self.untaken.starts_with(bytes)
    }
}
