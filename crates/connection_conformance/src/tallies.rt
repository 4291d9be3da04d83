//! How much was read.

use std::fmt;

/// How much was read.
#[derive(Clone, Copy)]
pub struct Tally {
    pub events: u64,
    pub readings: u64,
    pub pieces: u64,
    /// How many events a client and a server said again, and how many of them by the same bytes.
    pub said: u64,
    pub same: u64,
}

/// Nothing was.
pub const NOTHING: Tally = Tally {
    events: 0,
    readings: 0,
    pieces: 0,
    said: 0,
    same: 0,
};

impl Tally {
    /// This and that.
    pub fn add(&mut self, other: Tally) {
        self.events = self.events.saturating_add(other.events);
        self.readings = self.readings.saturating_add(other.readings);
        self.pieces = self.pieces.saturating_add(other.pieces);
        self.said = self.said.saturating_add(other.said);
        self.same = self.same.saturating_add(other.same);
    }
}

impl fmt::Display for Tally {
    fn fmt<W: fmt::Write>(&self, f: &mut fmt::Formatter<W>) -> fmt::Result {
        write!(
            f,
            "{} events, {} readings in {} pieces, {} said again, {} by the same bytes",
            self.events, self.readings, self.pieces, self.said, self.same
        )
    }
}
