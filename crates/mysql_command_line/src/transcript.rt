//! A transcript of a connection, read piece by piece, whose events are printed.

ghost use Rattle.std.specs.Prelude.{◌<◌, ◌≡◌, ◌≤◌, IfErr, IfOk, length};
ghost use Rattle.mysql_command_line.specs.declared.stop.Stop.TheVariants as stops;

use crate::position::{Position, Record};
use crate::stop::Stop;
use mysql_connection_lines::{Form, print_event};
use mysql_connection_machine::{Connection, End, FeedRefusal};
use mysql_connection_rules::{Fault, Limits, Reason, Side};
use mysql_connection_state::{Event, Phase};
use std::alloc::Global;
use std::io::Write;

/// Prints an event's line whole, or nothing of it where memory is refused.
fn print_line<W: Write>(
    alloc: Global,
    output: &mut W,
    event: &Event,
    form: Form,
) -> Result<(), Stop>
    ensures { IfErr result (λ stop. stop ≡ stops.Memory → output.new ≡ output.old) }
{
    let mut line = Vec::new(alloc);
    print_event(&mut line, event, form)?;
    match output.write_all(&line) {
        Ok(()) => Ok(()),
        Err(_) => Err(Stop::Writing),
    }
}

/// A transcript as far as it came, and the connection that it is of.
#[derive(Drop)]
pub(crate) struct Transcript {
    alloc: Global,
    connection: Connection,
    position: Position,
    form: Form,
}

impl Transcript {
    /// One of which no byte came.
    pub(crate) fn new(alloc: Global, limits: Limits, form: Form) -> Transcript {
        Transcript {
            alloc,
            connection: Connection::new(alloc, limits),
            position: Position::before_record(),
            form,
        }
    }

    /// Whether nothing that follows changes what is printed. Behind a quit what the client says is a
    /// fault.
    fn is_over(&self) -> bool {
        if self.connection.fault().is_some() {
            return true;
        }
        match self.connection.phase() {
            Phase::Over(Reason::Quit) => !self.connection.rest(Side::Client).is_empty(),
            Phase::Over(_) => true,
            _ => false,
        }
    }

    /// Prints the events that can be taken.
    fn print_events<W: Write>(&mut self, output: &mut W) -> Result<(), Stop> {
        for _ in 0..u64::MAX {
            match self.connection.next_event() {
                Ok(Some(event)) => { print_line(self.alloc, output, &event, self.form)? },
                _ => return Ok(()),
            }
        }
        Ok(())
    }

    /// Feeds bytes of a side.
    fn feed(&mut self, side: Side, bytes: &[u8]) -> Result<(), Stop> {
        match self.connection.feed(side, bytes) {
            Ok(()) => Ok(()),
            Err(FeedRefusal::Memory) => Err(Stop::Memory),
            Err(_) => Err(Stop::Held),
        }
    }

    /// Takes bytes of a side as far as there is room for them, prints what they say, and answers how
    /// many it took. What has no room where the connection is over is passed over.
    fn take_bytes<W: Write>(
        &mut self,
        output: &mut W,
        side: Side,
        bytes: &[u8],
    ) -> Result<usize, Stop>
        requires { 0 < length bytes.now }
        ensures { IfOk result (λ count. (0 < count) × (count ≤ length bytes.now)) }
    {
        let count = bytes.len().min(self.connection.room(side));
        if count > 0 {
            self.feed(side, &bytes[..count])?;
            self.print_events(output)?;
            return Ok(count);
        }
        match self.connection.phase() {
            Phase::Over(_) => Ok(bytes.len()),
            _ => Err(Stop::Held),
        }
    }

    /// Takes the bytes of a record that a piece begins with, and answers what follows them.
    fn take_record<'p, W: Write>(
        &mut self,
        output: &mut W,
        record: Record,
        piece: &'p [u8],
    ) -> Result<&'p [u8], Stop>
        requires { 0 < length piece.now }
        ensures { IfOk result (λ rest. length rest.now < length piece.now) }
    {
        let Record { side, left } = record;
        let most = piece.len().min(left as usize);
        let count = self.take_bytes(output, side, &piece[..most])?;
        self.position = Position::in_record(side, left - count as u32);
        Ok(&piece[count..])
    }

    /// Takes what comes first in a piece, a byte of a record's header or bytes of a side, and
    /// answers what follows it.
    fn take_front<'p, W: Write>(
        &mut self,
        output: &mut W,
        piece: &'p [u8],
    ) -> Result<&'p [u8], Stop>
        requires { 0 < length piece.now }
        ensures { IfOk result (λ rest. length rest.now < length piece.now) }
    {
        match self.position {
            Position::Header(header, count) => {
                self.position = Position::after_header_byte(header, count, piece[0])?;
                Ok(&piece[1..])
            }
            Position::Record(record) => self.take_record(output, record, piece),
        }
    }

    /// Takes a piece of the transcript, prints what it says, and answers whether what follows may
    /// change anything.
    pub(crate) fn take_piece<W: Write>(
        &mut self,
        output: &mut W,
        piece: &[u8],
    ) -> Result<bool, Stop> {
        let mut rest = piece;
        while !rest.is_empty() {
            rest = self.take_front(output, rest)?;
            if self.is_over() {
                return Ok(false);
            }
        }
        Ok(true)
    }

    /// Reads the end of the transcript, prints what that says, and answers in which state the
    /// connection is.
    pub(crate) fn end<W: Write>(&mut self, output: &mut W) -> Result<End, Stop> {
        if !self.is_over() && !self.position.is_between_records() {
            return Err(Stop::BadTranscript);
        }
        self.connection.close(Side::Client);
        self.connection.close(Side::Server);
        self.print_events(output)?;
        match self.connection.finish() {
            End::Fault(failure) if failure.fault == Fault::Memory => Err(Stop::Memory),
            end => Ok(end),
        }
    }
}
