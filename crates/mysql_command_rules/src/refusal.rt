//! Why parameter sets are not sent.

ghost use Rattle.std.specs.Prelude.{◌≡◌};
ghost use Rattle.mysql_command_rules.specs.declared.refusal.Refusal.TheVariants as refusal;

use mysql_values::SetError;
use std::alloc::{AllocError, AllocFailed};
use std::fmt;
use thiserror::Error;

/// Why parameter sets are not sent, in the order in which the causes are looked for. Sets and
/// places are counted from 0.
#[derive(Debug, PartialEq, Eq, Drop, Error)]
pub enum Refusal {
    /// The query has both names and question marks.
    Mixed,
    /// By text: the first placeholder that does not stand alone.
    NotAlone(usize),
    /// By execute and bulk: the query has more than 65535 placeholders.
    TooManyPlaces,
    /// By execute and bulk: the prepare is longer than a payload within the limit.
    PrepareTooLarge,
    /// By bulk: the query has no placeholders.
    NoPlaces,
    /// A set gives the query no values.
    Params(usize, SetError),
    /// The values of a set are not as many as the placeholders.
    WrongCount(usize),
    /// A value of a set is a float: the set, and the first such place.
    Float(usize, usize),
    /// The command of a set is longer than a payload within the limit.
    PacketTooLarge(usize),
    /// By bulk: a value of another kind than the earlier ones of its column.
    MixedKinds(usize, usize),
    /// By bulk: no request with types of its own holds the values of a set.
    RowTooLarge(usize),
    Memory,
}

impl Refusal {
    /// The set that is refused.
    fn set(&self) -> Option<usize> {
        match self {
            Refusal::Params(set, _)
            | Refusal::WrongCount(set)
            | Refusal::Float(set, _)
            | Refusal::PacketTooLarge(set)
            | Refusal::MixedKinds(set, _)
            | Refusal::RowTooLarge(set) => Some(*set),
            _ => None,
        }
    }

    /// The place that is refused.
    fn place(&self) -> Option<usize> {
        match self {
            Refusal::NotAlone(place) | Refusal::Float(_, place) | Refusal::MixedKinds(_, place) =>
                Some(*place),
            _ => None,
        }
    }

    /// The text before the place and behind it; the text of `Params` is its error's.
    fn text(&self) -> (&'static str, &'static str) {
        match self {
            Refusal::Mixed => (
                "the query has both named and positional parameters: use one kind",
                "",
            ),
            Refusal::NotAlone(_) => (
                "placeholder ",
                " does not stand alone: a neighbour joins it, or servers read it differently",
            ),
            Refusal::TooManyPlaces => (
                "the query has more than 65535 placeholders: split it, or send it as text",
                "",
            ),
            Refusal::PrepareTooLarge => (
                "the prepare is larger than max_allowed_packet: raise it, or shorten the query",
                "",
            ),
            Refusal::NoPlaces => (
                "the query has no placeholders: send it by execute, or as text",
                "",
            ),
            Refusal::Params(_, _) => ("", ""),
            Refusal::WrongCount(_) => (
                "the values are not as many as the placeholders: give one for each",
                "",
            ),
            Refusal::Float(_, _) => ("the value at place ", " is a float: give it as a text"),
            Refusal::PacketTooLarge(_) => (
                "its command is larger than max_allowed_packet: raise it, or send less in a set",
                "",
            ),
            Refusal::MixedKinds(_, _) => (
                "the value at place ",
                " is of another kind than those before it: use one kind, or send by execute",
            ),
            Refusal::RowTooLarge(_) => (
                "its row is larger than max_allowed_packet: raise it, or split the row",
                "",
            ),
            Refusal::Memory => ("out of memory", ""),
        }
    }

    /// Writes the text with its place.
    fn write_text<W: fmt::Write>(&self, f: &mut fmt::Formatter<W>) -> fmt::Result {
        let (before, behind) = self.text();
        match self.place() {
            Some(place) => write!(f, "{before}{place}{behind}"),
            None => f.write_str(before),
        }
    }
}

impl fmt::Display for Refusal {
    fn fmt<W: fmt::Write>(&self, f: &mut fmt::Formatter<W>) -> fmt::Result {
        if let Some(set) = self.set() {
            write!(f, "set {set}: ")?;
        }
        match self {
            Refusal::Params(_, error) => fmt::Display::fmt(error, f),
            _ => self.write_text(f),
        }
    }
}

impl From<AllocError> for Refusal {
    ghost from_gives = { λ _ e. e ≡ refusal.Memory };

    fn from(_e: AllocError) -> Refusal {
        Refusal::Memory
    }
}

impl<T: Drop> From<AllocFailed<T>> for Refusal {
    ghost from_gives = { λ _ e. e ≡ refusal.Memory };

    fn from(_e: AllocFailed<T>) -> Refusal {
        Refusal::Memory
    }
}
