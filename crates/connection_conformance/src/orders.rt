//! The orders in which the bytes of both sides come.

use crate::numbers::Numbers;
use mysql_connection_rules::Side;

/// The order in which the bytes of both sides come.
#[derive(Clone, Copy)]
pub enum Order {
    /// This side's in one piece, and then the other's.
    First(Side),
    /// This side's in steps, behind all of the other's.
    Behind(Side),
    /// A step of each side by turns.
    ByTurns,
    /// Random pieces of random sides, by the generator of this number.
    Random(u64),
}

/// In so many steps both streams come at most; those of fewer bytes come byte by byte.
pub const STEPS: usize = 4096;

/// The other side.
fn other(side: Side) -> Side {
    match side {
        Side::Client => Side::Server,
        Side::Server => Side::Client,
    }
}

impl Order {
    /// What a failure calls it.
    pub fn name(self) -> &'static str {
        match self {
            Order::First(Side::Client) => "the client first",
            Order::First(Side::Server) => "the server first",
            Order::Behind(Side::Client) => "the client behind the server",
            Order::Behind(Side::Server) => "the server behind the client",
            Order::ByTurns => "by turns",
            Order::Random(_) => "in random pieces",
        }
    }

    /// The side that comes next behind bytes of this one, and how many it has left, where the client
    /// and the server have so many. Where it has none, the other side comes.
    pub fn next(
        self,
        last: Side,
        (client, server): (usize, usize),
        numbers: &mut Numbers,
    ) -> (Side, usize) {
        let side = match self {
            Order::First(side) => side,
            Order::Behind(side) => other(side),
            Order::ByTurns => other(last),
            Order::Random(_) if numbers.below(2) == 0 => Side::Client,
            Order::Random(_) => Side::Server,
        };
        match side {
            Side::Client if client == 0 => (Side::Server, server),
            Side::Server if server == 0 => (Side::Client, client),
            Side::Client => (side, client),
            Side::Server => (side, server),
        }
    }

    /// How many of a side's bytes come at once, where so many are left.
    pub fn count(self, side: Side, left: usize, step: usize, numbers: &mut Numbers) -> usize {
        match self {
            Order::First(_) => left,
            Order::Behind(behind) if behind != side => left,
            Order::Behind(_) | Order::ByTurns => left.min(step),
            Order::Random(_) => {
                let most = numbers.below(300);
                left.min(numbers.below(most).saturating_add(1))
            }
        }
    }
}
