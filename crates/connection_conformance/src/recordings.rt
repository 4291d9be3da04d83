//! Recorded connections, and the ways in which each is read.

use crate::numbers::Numbers;
use crate::orders::Order;
use crate::readings::{Task, collect, read};
use crate::speaking::say;
use crate::streams::packets_of;
use crate::tallies::Tally;
use crate::troubles::{Failure, Part, Trouble};
use mysql_connection_machine::Connection;
use mysql_connection_rules::{Limits, Side};
use mysql_const::Capabilities;
use std::alloc::Global;
use std::rt::Files;
use std::{fs, io};

/// How many pairs of prefixes of a recording are read, and how many of its bytes are changed.
pub const MANY: u64 = 8;

/// As many are of a conversation, and at least of any recording.
pub const FEW: u64 = 2;

/// Of a long recording fewer are: so many that this many bytes are read.
const READ: usize = 50_000;

/// The limits under which recordings are read.
const LIMITS: Limits = Limits {
    client: 1 << 24,
    server: 1 << 24,
    held: 1 << 27,
};

/// The limits where a byte is changed: a length may be above them.
const LOW_LIMITS: Limits = Limits {
    client: 1 << 18,
    server: 1 << 18,
    held: 1 << 27,
};

/// A recorded connection: the bytes of both sides, and the lines of its events and of its end.
#[derive(Drop)]
pub struct Recording {
    pub client: Vec<u8>,
    pub server: Vec<u8>,
    pub lines: Vec<u8>,
    /// What is in force behind a login, where it begins there.
    pub in_force: Option<Capabilities>,
}

/// The bytes of a file of a recording.
fn read_file<R: Files + AllocGlobal>(rt: &R, name: &str, kind: &str) -> io::Result<Vec<u8>> {
    let path = format!(in rt.alloc(); "{name}.{kind}")?;
    fs::read(rt, path.as_str())
}

/// The least limits by which a recording is read, of which so much is kept.
fn least_limits(alloc: Global, task: &Task<'_>, kept: usize) -> Limits {
    let (client, _) = packets_of(task.client);
    let (server, _) = packets_of(task.server);
    let held = 0;
    let limits = Limits {
        client,
        server,
        held,
    };
    let connection = Connection::new(alloc, limits);
    let client = connection.room(Side::Client);
    let server = connection.room(Side::Server);
    Limits {
        held: client.saturating_add(server).saturating_add(kept),
        ..limits
    }
}

/// A prefix of a stream: all of it, up to any byte, or up to a packet's end.
fn front<'a>(stream: &'a [u8], numbers: &mut Numbers) -> &'a [u8] {
    let kind = numbers.below(3);
    let count = numbers.below(stream.len());
    let front = stream.get(..count).unwrap_or(stream);
    let (_, whole) = packets_of(front);
    match kind {
        0 => stream,
        1 => front,
        _ => whole,
    }
}

/// Reads all of it in each of these orders, with rows that are lent where that is said. It returns
/// the most that was kept by the last.
fn read_in_orders(
    alloc: Global,
    task: Task<'_>,
    orders: &[(Order, bool)],
    tally: &mut Tally,
) -> Result<usize, Failure> {
    let mut kept = 0;
    for (order, lent) in orders {
        let (order, lent) = (*order, *lent);
        kept = read(
            alloc,
            &Task {
                order,
                lent,
                ..task
            },
            tally,
        )?;
    }
    Ok(kept)
}

/// Reads all of it, and returns the most that was kept.
fn read_whole(alloc: Global, task: Task<'_>, tally: &mut Tally) -> Result<usize, Failure> {
    let orders = [
        (Order::ByTurns, true),
        (Order::Random(1), true),
        (Order::First(Side::Client), false),
        (Order::First(Side::Server), false),
        (Order::Behind(Side::Client), false),
        (Order::Behind(Side::Server), false),
        (Order::ByTurns, false),
        (Order::Random(2), false),
    ];
    read_in_orders(alloc, task, &orders, tally)
}

/// Reads all of it under the least limits, and with a byte less to keep.
fn read_under_limits(
    alloc: Global,
    task: Task<'_>,
    kept: usize,
    tally: &mut Tally,
) -> Result<(), Failure> {
    let limits = least_limits(alloc, &task, kept);
    let orders = [
        (Order::First(Side::Client), false),
        (Order::Random(3), false),
    ];
    read_in_orders(alloc, Task { limits, ..task }, &orders, tally)?;
    if kept == 0 {
        return Ok(());
    }
    let part = Part::Short;
    let held = limits.held.saturating_sub(1);
    let limits = Limits { held, ..limits };
    let short = Task {
        part,
        limits,
        ..task
    };
    read(alloc, &short, tally)?;
    Ok(())
}

/// Reads so many prefixes of both streams, every other one with rows that are lent.
fn read_fronts(
    alloc: Global,
    task: Task<'_>,
    count: u64,
    tally: &mut Tally,
) -> Result<(), Failure> {
    let mut numbers = Numbers::new(task.lines.len() as u64);
    for seed in 0..count {
        let client = front(task.client, &mut numbers);
        let server = front(task.server, &mut numbers);
        let part = Part::Fronts(client.len(), server.len());
        let order = Order::Random(seed);
        let lent = seed % 2 == 1;
        let fronts = Task {
            part,
            client,
            server,
            order,
            lent,
            ..task
        };
        read(alloc, &fronts, tally)?;
    }
    Ok(())
}

/// What fails of all of it.
pub fn failure_of(part: Part, order: Order, trouble: Trouble) -> Failure {
    Failure {
        part,
        order,
        trouble,
        lines: 0,
        pieces: 0,
    }
}

/// Has a client and a server say it again.
fn say_again(alloc: Global, task: Task<'_>, tally: &mut Tally) -> Result<(), Failure> {
    let seed = 4;
    match say(alloc, &task, seed) {
        Ok(said) => {
            tally.said = tally.said.saturating_add(said.events);
            tally.same = tally.same.saturating_add(said.same);
            Ok(())
        }
        Err(trouble) => Err(failure_of(Part::Said, Order::Random(seed), trouble)),
    }
}

impl Recording {
    /// The files of a recording.
    pub fn read<R: Files + AllocGlobal>(rt: &R, name: &str) -> io::Result<Recording> {
        let client = read_file(rt, name, "client")?;
        let server = read_file(rt, name, "server")?;
        let lines = read_file(rt, name, "events")?;
        Ok(Recording {
            client,
            server,
            lines,
            in_force: None,
        })
    }

    /// One of which nothing was said.
    pub fn new(alloc: Global) -> Recording {
        Recording {
            client: Vec::new(alloc),
            server: Vec::new(alloc),
            lines: Vec::new(alloc),
            in_force: None,
        }
    }

    /// How many bytes both sides have.
    pub fn len(&self) -> usize {
        self.client.len().saturating_add(self.server.len())
    }

    /// All of it, in one piece.
    fn task(&self) -> Task<'_> {
        Task {
            part: Part::Whole,
            client: self.client.as_slice(),
            server: self.server.as_slice(),
            lines: self.lines.as_slice(),
            order: Order::First(Side::Client),
            lent: false,
            limits: LIMITS,
            in_force: self.in_force,
        }
    }

    /// Has the lines be those that come where both streams come in one piece.
    pub fn collect(&mut self, alloc: Global) -> Result<(), Failure> {
        let mut lines = Vec::new(alloc);
        if let Err(trouble) = collect(alloc, &self.task(), &mut lines) {
            return Err(failure_of(Part::Whole, Order::First(Side::Client), trouble));
        }
        self.lines = lines;
        Ok(())
    }

    /// A side's stream.
    pub fn stream(&mut self, side: Side) -> &mut Vec<u8> {
        match side {
            Side::Client => &mut self.client,
            Side::Server => &mut self.server,
        }
    }

    /// Turns bits of a byte over that this number chooses, and returns which byte that is.
    fn turn(&mut self, seed: u64) -> Part {
        let mut numbers = Numbers::new(seed);
        let side = if numbers.below(2) == 0 {
            Side::Client
        } else {
            Side::Server
        };
        let stream = self.stream(side);
        let place = numbers.below(stream.len());
        if let Some(byte) = stream.get_mut(place) {
            *byte ^= ((numbers.below(255) & 0xff) as u8).saturating_add(1);
        }
        Part::Changed(side, place)
    }

    /// Reads it with its changed byte, in one piece and in an order: both have to give the same
    /// lines. For every other number rows are lent.
    fn read_changed(
        &self,
        alloc: Global,
        part: Part,
        seed: u64,
        tally: &mut Tally,
    ) -> Result<usize, Failure> {
        let order = match seed % 3 {
            0 => Order::First(Side::Server),
            1 => Order::ByTurns,
            _ => Order::Random(seed),
        };
        let task = Task {
            part,
            order,
            lent: seed % 2 == 1,
            limits: LOW_LIMITS,
            ..self.task()
        };
        let mut lines = Vec::new(alloc);
        match collect(alloc, &task, &mut lines) {
            Ok(()) => read(
                alloc,
                &Task {
                    lines: lines.as_slice(),
                    ..task
                },
                tally,
            ),
            Err(trouble) => Err(failure_of(part, order, trouble)),
        }
    }

    /// Reads it with so many bytes changed, one at a time.
    fn read_changes(
        &mut self,
        alloc: Global,
        count: u64,
        tally: &mut Tally,
    ) -> Result<(), Failure> {
        let first = self.lines.len() as u64;
        for seed in first..first.saturating_add(count) {
            let part = self.turn(seed);
            let read = self.read_changed(alloc, part, seed, tally);
            self.turn(seed);
            read?;
        }
        Ok(())
    }

    /// Reads it in all ways: of prefixes and of changed bytes there are so many, or fewer.
    pub fn check_once(
        &mut self,
        alloc: Global,
        most: u64,
        tally: &mut Tally,
    ) -> Result<(), Failure> {
        let count = most.min((READ / self.len().max(1)) as u64).max(FEW);
        let task = self.task();
        let kept = read_whole(alloc, task, tally)?;
        read_under_limits(alloc, task, kept, tally)?;
        read_fronts(alloc, task, count, tally)?;
        say_again(alloc, task, tally)?;
        self.read_changes(alloc, count, tally)
    }

    /// Reads it in all ways, once more where memory is refused.
    pub fn check(&mut self, alloc: Global, most: u64, tally: &mut Tally) -> Result<(), Failure> {
        let before = *tally;
        match self.check_once(alloc, most, tally) {
            Err(failure) if matches!(failure.trouble, Trouble::Memory) => {
                *tally = before;
                self.check_once(alloc, most, tally)
            }
            answer => answer,
        }
    }
}
