//! A conversation as the streams of both sides. What its rows say of events and of the connection's
//! state is looked at by `bindings/test`, in C, Rust and Python.

use crate::recordings::Recording;
use crate::troubles::Trouble;
use mysql_connection_rules::Side;
use mysql_const::{Capabilities, CapabilityFlags, MariadbCapabilities};
use mysql_wire::PacketCodec;
use std::alloc::Global;
use tests_support::rows::{Names, bytes_of, tokens_of};

/// How far the rows of a conversation were taken.
#[derive(Drop)]
pub struct Talk {
    /// What both sides said so far.
    pub told: Recording,
    /// What frames the next payload.
    codec: PacketCodec,
    /// Whether a side's stream ended.
    has_closed: bool,
    /// Whether what comes depends on which bytes come first: by limits, or behind an end.
    pub depends_on_order: bool,
    /// The line that is read, counted from the title's.
    pub line: usize,
}

/// The side that a word names.
fn side_of(word: &str) -> Result<Side, Trouble> {
    match word {
        "client" | "command" => Ok(Side::Client),
        "server" => Ok(Side::Server),
        _ => Err(Trouble::Unknown),
    }
}

/// The bytes that a field refers to.
fn bytes_of_field(alloc: Global, names: &Names<'_>, field: &str) -> Result<Vec<u8>, Trouble> {
    let tokens = tokens_of(alloc, field, names)?;
    Ok(bytes_of(alloc, tokens.as_slice())?)
}

impl Talk {
    /// A conversation of which nothing was said.
    pub fn new(alloc: Global) -> Talk {
        Talk {
            told: Recording::new(alloc),
            codec: PacketCodec::at(0, usize::MAX),
            has_closed: false,
            depends_on_order: false,
            line: 0,
        }
    }

    /// The number of the next packet is given behind an @, and is 0 of a command; else it goes on
    /// behind the packet before.
    fn number(&mut self, kind: &str, word: &str) -> Result<(), Trouble> {
        let Some(number) = word.strip_prefix('@') else {
            if kind == "command" {
                self.codec.reset_seq_id();
            }
            return Ok(());
        };
        let Ok(number) = number.parse::<usize>() else {
            return Err(Trouble::Unknown);
        };
        self.codec = PacketCodec::at((number & 0xff) as u8, usize::MAX);
        Ok(())
    }

    /// Bytes of a side come, or a payload.
    fn say(&mut self, kind: &str, word: &str, payload: &[u8]) -> Result<(), Trouble> {
        self.depends_on_order = self.depends_on_order || self.has_closed;
        if kind == "bytes" {
            let stream = self.told.stream(side_of(word)?);
            stream.extend_from_slice(payload)?;
            return Ok(());
        }
        self.number(kind, word)?;
        let stream = self.told.stream(side_of(kind)?);
        match self.codec.encode(payload, stream) {
            Ok(()) => Ok(()),
            Err(_) => Err(Trouble::Memory),
        }
    }

    /// What is in force behind the login.
    fn log_in(&mut self, protocol: &str, mariadb: &str) -> Result<(), Trouble> {
        let (Ok(protocol), Ok(mariadb)) = (
            u32::from_str_radix(protocol, 16),
            u32::from_str_radix(mariadb, 16),
        ) else {
            return Err(Trouble::Unknown);
        };
        self.told.in_force = Some(Capabilities {
            protocol: CapabilityFlags(protocol),
            mariadb: MariadbCapabilities(mariadb),
        });
        Ok(())
    }

    /// Takes a row.
    pub fn take(&mut self, alloc: Global, names: &Names<'_>, row: &str) -> Result<(), Trouble> {
        let mut fields = row.split('|');
        let mut words = fields.next().unwrap_or("").split_whitespace();
        let kind = words.next().unwrap_or("");
        let word = words.next().unwrap_or("");
        let first = fields.next().unwrap_or("").trim();
        let second = fields.next().unwrap_or("").trim();
        match kind {
            "at" | "event" | "held" | "turn" | "mode" | "spelling" | "end" => return Ok(()),
            "in" => return self.log_in(first, second),
            "limits" => self.depends_on_order = true,
            "close" => self.has_closed = true,
            _ => {
                let bytes = bytes_of_field(alloc, names, first)?;
                return self.say(kind, word, bytes.as_slice());
            }
        }
        Ok(())
    }
}
