//! What a reading gives otherwise than it has to.

use crate::orders::Order;
use mysql_connection_rules::Side;
use std::alloc::AllocError;
use std::{fmt, io};
use tests_support::rows::Trouble as FieldTrouble;

/// What a reading gives otherwise than it has to.
#[derive(Clone, Copy)]
pub enum Trouble {
    Memory,
    /// A piece is refused that there is room for, or taken though there is none.
    Feed,
    /// An event, or the end, is another.
    Line,
    /// No row is lent though one is told of, or one though none is.
    Row,
    /// An event comes before its bytes.
    Early,
    /// No event comes though its bytes are there.
    Late,
    /// A fault is found where none is.
    Fault,
    /// It is another side's turn.
    Turn,
    /// Other bytes are unread.
    Rest,
    /// More or less is held than has to be.
    Held,
    /// The end isn't the one that the connection has.
    End,
    /// An event that was read isn't put again.
    Put,
    /// A row of a conversation is none that is known.
    Unknown,
}

impl Trouble {
    pub fn text(self) -> &'static str {
        match self {
            Trouble::Memory => "memory is refused twice",
            Trouble::Feed => "a piece is refused or taken against what there is room for",
            Trouble::Line => "the next line is another",
            Trouble::Row => "no row is lent, or one that wasn't told of",
            Trouble::Early => "the next line comes before its bytes",
            Trouble::Late => "the next line doesn't come though its bytes are there",
            Trouble::Fault => "there is a fault",
            Trouble::Turn => "another side is due",
            Trouble::Rest => "other bytes are unread",
            Trouble::Held => "more or less is held than has to be",
            Trouble::End => "the end isn't how the connection stands",
            Trouble::Put => "an event that was read isn't put again",
            Trouble::Unknown => "the row is none that is known",
        }
    }
}

impl From<FieldTrouble> for Trouble {
    fn from(error: FieldTrouble) -> Trouble {
        match error {
            FieldTrouble::Memory => Trouble::Memory,
            FieldTrouble::Malformed(_) => Trouble::Unknown,
        }
    }
}

impl From<AllocError> for Trouble {
    fn from(_e: AllocError) -> Trouble {
        Trouble::Memory
    }
}

/// Lines are written to memory, which alone can refuse them.
impl From<io::Error> for Trouble {
    fn from(_e: io::Error) -> Trouble {
        Trouble::Memory
    }
}

/// What is read of a recording.
#[derive(Clone, Copy)]
pub enum Part {
    /// All of it.
    Whole,
    /// Prefixes of both streams, of so many bytes of the client's and of the server's.
    Fronts(usize, usize),
    /// All of it, but this byte of this side is another.
    Changed(Side, usize),
    /// All of it, where a byte less may be kept than has to be.
    Short,
    /// All of it, said again by a client and a server.
    Said,
    /// Row by row.
    Rows,
}

impl fmt::Display for Part {
    fn fmt<W: fmt::Write>(&self, f: &mut fmt::Formatter<W>) -> fmt::Result {
        match self {
            Part::Whole => f.write_str("whole"),
            Part::Fronts(client, server) => write!(f, "fronts of {client} and {server} bytes"),
            Part::Changed(Side::Client, byte) => write!(f, "byte {byte} of the client changed"),
            Part::Changed(Side::Server, byte) => write!(f, "byte {byte} of the server changed"),
            Part::Short => f.write_str("with too little room"),
            Part::Said => f.write_str("said again"),
            Part::Rows => f.write_str("row by row"),
        }
    }
}

/// A reading that gives other than it has to.
#[derive(Clone, Copy)]
pub struct Failure {
    pub part: Part,
    pub order: Order,
    pub trouble: Trouble,
    /// How many lines came before.
    pub lines: u64,
    /// How many bytes were fed in how many pieces.
    pub pieces: u64,
}

impl fmt::Display for Failure {
    fn fmt<W: fmt::Write>(&self, f: &mut fmt::Formatter<W>) -> fmt::Result {
        write!(
            f,
            "{}, {}: {} behind {} lines and {} pieces",
            self.part,
            self.order.name(),
            self.trouble.text(),
            self.lines,
            self.pieces
        )
    }
}
