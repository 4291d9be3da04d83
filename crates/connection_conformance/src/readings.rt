//! A reading of both streams, each line of which is compared as it comes.

use crate::calls::{Next, begin, close, feed, is_told, put_end, put_lines, put_next};
use crate::numbers::Numbers;
use crate::orders::{Order, STEPS};
use crate::streams::Stream;
use crate::tallies::Tally;
use crate::troubles::{Failure, Part, Trouble};
use mysql_connection_machine::Connection;
use mysql_connection_rules::{Fault, Limits, Side};
use mysql_const::Capabilities;
use std::alloc::Global;

/// What is read, and how.
#[derive(Clone, Copy)]
pub struct Task<'a> {
    pub part: Part,
    pub client: &'a [u8],
    pub server: &'a [u8],
    /// The lines of the events and of the end. Of prefixes they are those of the whole streams.
    pub lines: &'a [u8],
    pub order: Order,
    /// Whether rows are lent, or are events as any other.
    pub lent: bool,
    pub limits: Limits,
    /// What is in force behind a login, where it begins there.
    pub in_force: Option<Capabilities>,
}

/// How far a reading has come.
#[derive(Clone, Copy)]
struct Reading<'a> {
    client: Stream<'a>,
    server: Stream<'a>,
    /// The lines that are still to come.
    lines: &'a [u8],
    /// How many came, in how many pieces.
    taken: u64,
    pieces: u64,
    /// The most that was kept.
    kept: usize,
}

/// The side whose payload a line is. Last words and the end come of no turn.
fn side_of(line: &[u8]) -> Option<Side> {
    match line.first() {
        Some(b'c') => Some(Side::Client),
        Some(b's') if !line.starts_with(b"server Farewell ") => Some(Side::Server),
        _ => None,
    }
}

impl<'a> Reading<'a> {
    fn stream(&mut self, side: Side) -> &mut Stream<'a> {
        match side {
            Side::Client => &mut self.client,
            Side::Server => &mut self.server,
        }
    }

    /// A line came: it has to be the next one, and its packet to be there.
    fn take(&mut self, line: &[u8]) -> Result<(), Trouble> {
        let Some(lines) = self.lines.strip_prefix(line) else {
            return Err(Trouble::Line);
        };
        self.lines = lines;
        self.taken = self.taken.saturating_add(1);
        let stream = self.stream(side_of(line).unwrap_or(Side::Server));
        let Some(behind) = stream.behind() else {
            return Err(Trouble::Early);
        };
        stream.untaken = behind;
        Ok(())
    }

    /// Nothing more came: the next line's side has to be due, and its packet not to be there.
    fn wait(&mut self, turn: Option<Side>) -> Result<(), Trouble> {
        let Some(side) = side_of(self.lines) else {
            return Ok(());
        };
        if turn != Some(side) {
            Err(Trouble::Turn)
        } else if self.stream(side).behind().is_some() {
            Err(Trouble::Late)
        } else {
            Ok(())
        }
    }

    /// A fault came: it has to be the end, but for want of room, and nothing to be due.
    fn fail(&self, connection: &Connection) -> Result<(), Trouble> {
        if connection.turn().is_some() {
            return Err(Trouble::Turn);
        }
        match connection.fault() {
            Some(failure) if matches!(failure.fault, Fault::Held) => Ok(()),
            _ if self.lines.starts_with(b"end Fault ") => Ok(()),
            _ => Err(Trouble::Fault),
        }
    }

    /// Takes the lines that come. What is held behind each but for the bytes that wait is kept.
    fn take_lines(
        &mut self,
        connection: &mut Connection,
        line: &mut Vec<u8>,
        lent: bool,
    ) -> Result<(), Trouble> {
        for _ in 0..u64::MAX {
            line.clear();
            match put_next(connection, lent, line)? {
                Next::Line => self.take(line.as_slice())?,
                Next::Nothing => return self.wait(connection.turn()),
                Next::Failed => return self.fail(connection),
            }
            let waiting = self.client.waiting().saturating_add(self.server.waiting());
            self.kept = self.kept.max(connection.held().saturating_sub(waiting));
        }
        Ok(())
    }

    /// Feeds so many bytes of a side, or as many as there is room for, and returns which side's
    /// they are. Where there is none, the side is fed whose turn it is. Where it is nobody's, all
    /// is fed that is left: nothing comes of it.
    fn feed(
        &mut self,
        connection: &mut Connection,
        side: Side,
        count: usize,
    ) -> Result<Side, Trouble> {
        let side = if connection.room(side) > 0 {
            side
        } else {
            connection.turn().unwrap_or(side)
        };
        let is_due = connection.turn().is_some();
        let stream = self.stream(side);
        let piece = match stream.unfed.get(..count) {
            Some(piece) if is_due => piece,
            _ => stream.unfed,
        };
        let fed = feed(connection, side, piece)?;
        stream.unfed = stream.unfed.get(fed..).unwrap_or(&[]);
        self.pieces = self.pieces.saturating_add(u64::from(fed > 0));
        Ok(side)
    }

    /// Feeds both streams, and takes the lines behind each piece.
    fn feed_all(
        &mut self,
        connection: &mut Connection,
        line: &mut Vec<u8>,
        task: &Task<'_>,
    ) -> Result<(), Trouble> {
        let total = task.client.len().saturating_add(task.server.len());
        let step = (total / STEPS).saturating_add(1);
        let mut numbers = Numbers::new(match task.order {
            Order::Random(seed) => seed,
            _ => 0,
        });
        let mut side = Side::Client;
        for _ in 0..total {
            let pieces = self.pieces;
            let left = (self.client.unfed.len(), self.server.unfed.len());
            let (next, left) = task.order.next(side, left, &mut numbers);
            let count = task.order.count(next, left, step, &mut numbers);
            side = self.feed(connection, next, count)?;
            if self.pieces == pieces {
                break;
            }
            self.take_lines(connection, line, task.lent)?;
        }
        Ok(())
    }

    /// The state of the connection once both streams have ended: the line of that has to be the
    /// last one.
    fn end(
        &self,
        connection: &mut Connection,
        line: &mut Vec<u8>,
        part: Part,
    ) -> Result<(), Trouble> {
        let is_rest = self.client.is_rest(connection.rest(Side::Client))
            && self.server.is_rest(connection.rest(Side::Server));
        if !is_rest {
            return Err(Trouble::Rest);
        }
        let end = connection.finish();
        line.clear();
        put_end(end, line)?;
        match (part, connection.fault()) {
            _ if !is_told(end, connection) => Err(Trouble::End),
            (Part::Short, Some(failure)) if matches!(failure.fault, Fault::Held) => Ok(()),
            (Part::Short, _) => Err(Trouble::Held),
            _ if self.lines == line.as_slice() => Ok(()),
            _ => Err(Trouble::Line),
        }
    }

    /// Reads both streams, and the state of the connection once they have ended.
    fn run(
        &mut self,
        connection: &mut Connection,
        line: &mut Vec<u8>,
        task: &Task<'_>,
    ) -> Result<(), Trouble> {
        self.feed_all(connection, line, task)?;
        if matches!(task.part, Part::Fronts(..)) && connection.fault().is_none() {
            // Were they closed, an error might be last words, and other bytes unasked for.
            return Ok(());
        }
        close(connection)?;
        self.take_lines(connection, line, task.lent)?;
        self.end(connection, line, task.part)
    }
}

/// Reads it, counts the reading, and returns the most that was kept.
pub fn read(alloc: Global, task: &Task<'_>, tally: &mut Tally) -> Result<usize, Failure> {
    let mut connection = begin(alloc, task.limits, task.in_force);
    let mut line = Vec::new(alloc);
    let mut reading = Reading {
        client: Stream {
            unfed: task.client,
            untaken: task.client,
        },
        server: Stream {
            unfed: task.server,
            untaken: task.server,
        },
        lines: task.lines,
        taken: 0,
        pieces: 0,
        kept: 0,
    };
    let read = reading.run(&mut connection, &mut line, task);
    tally.readings = tally.readings.saturating_add(1);
    tally.pieces = tally.pieces.saturating_add(reading.pieces);
    if let Part::Whole = task.part {
        tally.events = reading.taken;
    }
    match read {
        Ok(()) => Ok(reading.kept),
        Err(trouble) => Err(Failure {
            part: task.part,
            order: task.order,
            trouble,
            lines: reading.taken,
            pieces: reading.pieces,
        }),
    }
}

/// Feeds both streams, each in one piece, and closes them.
pub fn feed_whole(connection: &mut Connection, task: &Task<'_>) -> Result<(), Trouble> {
    feed(connection, Side::Client, task.client)?;
    feed(connection, Side::Server, task.server)?;
    close(connection)
}

/// Appends the lines of a connection that gets both streams in one piece.
fn put_whole(
    connection: &mut Connection,
    task: &Task<'_>,
    lines: &mut Vec<u8>,
) -> Result<(), Trouble> {
    feed_whole(connection, task)?;
    put_lines(connection, lines)?;
    put_end(connection.finish(), lines)
}

/// Appends the lines of both streams in one piece.
pub fn collect(alloc: Global, task: &Task<'_>, lines: &mut Vec<u8>) -> Result<(), Trouble> {
    let mut connection = begin(alloc, task.limits, task.in_force);
    put_whole(&mut connection, task, lines)
}
