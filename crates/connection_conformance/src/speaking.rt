//! A recording said again: a client and a server put its events, each reads the other's, and an
//! auditor reads between them.

use crate::calls::{begin, feed, put_event};
use crate::numbers::Numbers;
use crate::readings::{Task, feed_whole};
use crate::streams::packet_length;
use crate::troubles::Trouble;
use mysql_connection_machine::{Connection, PayloadRefusal, PutRefusal};
use mysql_connection_rules::{Fault, Side};
use mysql_connection_state::Event;
use std::alloc::Global;

/// Those who speak, and who reads what they say.
#[derive(Drop)]
struct Speakers {
    alloc: Global,
    client: Connection,
    server: Connection,
    auditor: Connection,
}

/// How many events were said again, and how many of them by the bytes by which they were said first.
#[derive(Clone, Copy)]
pub struct Said<'a> {
    client: &'a [u8],
    server: &'a [u8],
    pub events: u64,
    pub same: u64,
}

impl<'a> Said<'a> {
    /// The payload of the side's next packet, as it was said first.
    fn payload(&self, side: Side) -> &'a [u8] {
        let left = match side {
            Side::Client => self.client,
            Side::Server => self.server,
        };
        let length = packet_length(left).unwrap_or(0);
        let payload = left.get(4..length);
        payload.unwrap_or(&[])
    }

    /// A packet of a side was said again by these bytes.
    fn take(&mut self, side: Side, bytes: &[u8]) {
        let left = match side {
            Side::Client => self.client,
            Side::Server => self.server,
        };
        let length = packet_length(left).unwrap_or(0);
        let behind = left.get(length..).unwrap_or(&[]);
        self.events = self.events.saturating_add(1);
        self.same = self.same.saturating_add(u64::from(left.starts_with(bytes)));
        match side {
            Side::Client => self.client = behind,
            Side::Server => self.server = behind,
        }
    }
}

/// Whether a line tells of cells that servers read each their way. Its event is put by others, which
/// each server reads alike.
fn is_unclear(line: &[u8]) -> bool {
    match str::from_utf8(line) {
        Ok(line) => line.split(" unclear=").count() > 1,
        Err(_) => false,
    }
}

/// Puts the payload of an event, once more where memory is refused.
fn put_payload(
    connection: &mut Connection,
    side: Side,
    payload: &[u8],
    out: &mut Vec<u8>,
) -> Result<(), Trouble> {
    let put = match connection.put_payload(side, payload, out) {
        Err(PayloadRefusal::Memory) => connection.put_payload(side, payload, out),
        answer => answer,
    };
    match put {
        Ok(_) => Ok(()),
        Err(PayloadRefusal::Memory) => Err(Trouble::Memory),
        Err(_) => Err(Trouble::Put),
    }
}

/// Puts an event, once more where memory is refused.
fn put(connection: &mut Connection, event: &Event, out: &mut Vec<u8>) -> Result<(), Trouble> {
    let put = match connection.put(event, out) {
        Err(PutRefusal::Memory) => connection.put(event, out),
        answer => answer,
    };
    match put {
        Ok(()) => Ok(()),
        Err(PutRefusal::Memory) => Err(Trouble::Memory),
        Err(_) => Err(Trouble::Put),
    }
}

/// Feeds all of a packet in pieces.
fn feed_pieces(
    connection: &mut Connection,
    side: Side,
    bytes: &[u8],
    numbers: &mut Numbers,
) -> Result<(), Trouble> {
    let mut left = bytes;
    for _ in 0..bytes.len() {
        let count = numbers.below(left.len()).saturating_add(1);
        let piece = left.get(..count).unwrap_or(left);
        let fed = feed(connection, side, piece)?;
        left = left.get(fed..).unwrap_or(&[]);
    }
    if left.is_empty() {
        Ok(())
    } else {
        Err(Trouble::Feed)
    }
}

/// Reads the next event, which has to be this line.
fn hear(connection: &mut Connection, line: &[u8], heard: &mut Vec<u8>) -> Result<(), Trouble> {
    heard.clear();
    match connection.next_event() {
        Ok(Some(event)) => put_event(&event, heard)?,
        Ok(None) => return Err(Trouble::Late),
        Err(_) => return Err(Trouble::Fault),
    }
    if heard.as_slice() == line {
        Ok(())
    } else {
        Err(Trouble::Line)
    }
}

/// Whether two connections are in the same state, but for bytes that wait.
fn stand_alike(one: &Connection, other: &Connection) -> bool {
    one.turn() == other.turn()
        && one.phase() == other.phase()
        && one.capabilities() == other.capabilities()
        && one.held() == other.held()
        && one.session_mode() == other.session_mode()
}

impl Speakers {
    fn new(alloc: Global, task: &Task<'_>) -> Speakers {
        Speakers {
            alloc,
            client: begin(alloc, task.limits, task.in_force),
            server: begin(alloc, task.limits, task.in_force),
            auditor: begin(alloc, task.limits, task.in_force),
        }
    }

    /// Those who speak and who listen to an event of a side.
    fn pair(&mut self, side: Side) -> (&mut Connection, &mut Connection) {
        match side {
            Side::Client => (&mut self.client, &mut self.server),
            Side::Server => (&mut self.server, &mut self.client),
        }
    }

    /// Says an event, which was said first by this payload: its side puts it, and the others read it.
    fn say(
        &mut self,
        event: &Event,
        payload: &[u8],
        line: &[u8],
        out: &mut Vec<u8>,
        numbers: &mut Numbers,
    ) -> Result<(), Trouble> {
        let side = event.side();
        if matches!(event, Event::Farewell(_)) && self.server.turn() == Some(Side::Client) {
            // The client says no more.
            self.client.close(Side::Client);
            self.server.close(Side::Client);
            self.auditor.close(Side::Client);
        }
        let mut heard = Vec::new(self.alloc);
        out.clear();
        let (speaker, listener) = self.pair(side);
        if is_unclear(line) {
            put_payload(speaker, side, payload, out)?;
        } else {
            put(speaker, event, out)?;
        }
        feed_pieces(listener, side, out.as_slice(), numbers)?;
        hear(listener, line, &mut heard)?;
        feed_pieces(&mut self.auditor, side, out.as_slice(), numbers)?;
        hear(&mut self.auditor, line, &mut heard)?;
        if stand_alike(&self.client, &self.server) && stand_alike(&self.client, &self.auditor) {
            Ok(())
        } else {
            Err(Trouble::Turn)
        }
    }
}

/// Says all events of a connection, which is fed both streams.
fn say_events(
    task: &Task<'_>,
    source: &mut Connection,
    speakers: &mut Speakers,
    seed: u64,
    said: &mut Said<'_>,
) -> Result<(), Trouble> {
    feed_whole(source, task)?;
    let alloc = speakers.alloc;
    let mut numbers = Numbers::new(seed);
    let mut line = Vec::new(alloc);
    let mut out = Vec::new(alloc);
    for _ in 0..u64::MAX {
        line.clear();
        match source.next_event() {
            Ok(Some(event)) => {
                put_event(&event, &mut line)?;
                let payload = said.payload(event.side());
                speakers.say(&event, payload, line.as_slice(), &mut out, &mut numbers)?;
                said.take(event.side(), out.as_slice());
            }
            Ok(None) => break,
            Err(failure) if matches!(failure.fault, Fault::Memory) => return Err(Trouble::Memory),
            Err(_) => break,
        }
    }
    Ok(())
}

/// Says all events of a recording, and returns how many.
pub fn say<'a>(alloc: Global, task: &Task<'a>, seed: u64) -> Result<Said<'a>, Trouble> {
    let mut source = begin(alloc, task.limits, task.in_force);
    let mut speakers = Speakers::new(alloc, task);
    let mut said = Said {
        client: task.client,
        server: task.server,
        events: 0,
        same: 0,
    };
    match say_events(task, &mut source, &mut speakers, seed, &mut said) {
        Ok(()) => Ok(said),
        Err(trouble) => Err(trouble),
    }
}
