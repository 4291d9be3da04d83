//! Rows of the table of events, and their fields.

ghost use Rattle.std.specs.Prelude.{◌≤◌, length};

use crate::lists::List;

/// How many fields an event has at most.
const FIELDS: usize = 12;

/// What a field holds.
#[derive(Clone, Copy)]
pub(crate) enum Held<'e> {
    /// What is usual, which no line has.
    Usual,
    /// Nothing: the field isn't there.
    Absent,
    /// A number; a flag is 0 or 1.
    Number(u64),
    /// Bytes.
    Bytes(&'e [u8]),
    /// The bytes of an SQL state.
    State([u8; 5]),
    /// Bytes of an authentication, as a password or its scramble.
    Secret(&'e [u8]),
    /// A list.
    List(List<'e>),
}

/// How short lines have a field.
#[derive(Clone, Copy)]
pub(crate) enum Brief {
    /// Without its name.
    Bare,
    /// Behind its name.
    Named,
    /// Not at all.
    Without,
}

/// A field of an event.
#[derive(Clone, Copy)]
pub(crate) struct Field<'e> {
    pub(crate) name: &'static str,
    pub(crate) held: Held<'e>,
    pub(crate) brief: Brief,
}

/// A list of fields. The prover covers a struct whose field is an array of values that borrow, where
/// the array's type is a parameter.
#[derive(Clone, Copy)]
pub(crate) struct Fields<T> {
    pub(crate) list: T,
}

fn listed<T>(list: T) -> Fields<T> {
    Fields { list }
}

/// What an event says: its name, and its fields in their order.
#[derive(Clone, Copy)]
pub struct Said<'e> {
    pub(crate) name: &'static str,
    pub(crate) fields: Fields<[Field<'e>; FIELDS]>,
}

/// An entry of the table: what an event of this name says, where it has no fields.
pub(crate) fn entry<'e>(name: &'static str) -> Said<'e> {
    let fields = listed([field_of("", Held::Usual); FIELDS]);
    Said { name, fields }
}

/// An entry of the table with one field, a number.
pub(crate) fn number_entry<'e>(name: &'static str, field: &'static str, it: u64) -> Said<'e> {
    entry(name).with(&[number(field, it)])
}

/// An entry of the table with one field, bytes.
pub(crate) fn bytes_entry<'e>(name: &'static str, field: &'static str, it: &'e [u8]) -> Said<'e> {
    entry(name).with(&[bytes(field, it)])
}

impl<'e> Said<'e> {
    /// What an event of the same name says that has these fields.
    pub(crate) fn with(self, fields: &[Field<'e>]) -> Said<'e>
        requires { length fields.now ≤ 12 }
    {
        let mut said = self;
        for (place, field) in fields.iter().enumerate() {
            if let Some(free) = said.fields.list.get_mut(place) {
                *free = *field;
            }
        }
        said
    }
}

impl<'e> Field<'e> {
    /// The field, which short lines have behind its name.
    pub(crate) fn named(self) -> Field<'e> {
        self.with(Brief::Named)
    }

    /// The field, which short lines don't have.
    pub(crate) fn long(self) -> Field<'e> {
        self.with(Brief::Without)
    }

    pub(crate) fn with(self, brief: Brief) -> Field<'e> {
        Field {
            name: self.name,
            held: self.held,
            brief,
        }
    }
}

/// A field that holds this.
pub(crate) fn field_of<'e>(name: &'static str, held: Held<'e>) -> Field<'e> {
    Field {
        name,
        held,
        brief: Brief::Bare,
    }
}

pub(crate) fn number<'e>(name: &'static str, number: u64) -> Field<'e> {
    field_of(name, Held::Number(number))
}

pub(crate) fn bytes<'e>(name: &'static str, bytes: &'e [u8]) -> Field<'e> {
    field_of(name, Held::Bytes(bytes))
}

/// A field that has bytes, or else holds this.
pub(crate) fn bytes_or<'e>(
    name: &'static str,
    otherwise: Held<'e>,
    bytes: Option<&'e [u8]>,
) -> Field<'e> {
    match bytes {
        Some(bytes) => field_of(name, Held::Bytes(bytes)),
        None => field_of(name, otherwise),
    }
}

pub(crate) fn secret<'e>(name: &'static str, bytes: &'e [u8]) -> Field<'e> {
    field_of(name, Held::Secret(bytes))
}
