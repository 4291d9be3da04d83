//! Lines of events.

use crate::fields::{Brief, Field, Held, Said};
use crate::lists::{List, write_elements};
use crate::secrets::Secrets;
use crate::texts::Texts;
use crate::values::{write_bytes, write_hexadecimal};
use std::alloc::Global;
use std::io;
use std::io::Write;

/// How a line has what an event says.
///
/// A number is written in decimals, and what isn't there as `-`. Bytes are `x` and hexadecimal, but
/// where a form has texts.
#[derive(Clone, Copy)]
pub enum Form {
    /// The name, and each field as ` name=` and what it holds. A list stands in parentheses.
    Long(Secrets),
    /// The same with texts in quotes, and with values as people read them.
    LongWithTexts(Secrets, Global),
    /// For people: the name as `reset-statement`, and what they look for, mostly without its name.
    Short(Secrets, Texts, Global),
}

impl Form {
    fn secrets(self) -> Secrets {
        match self {
            Form::Long(secrets) => secrets,
            Form::LongWithTexts(secrets, _) => secrets,
            Form::Short(secrets, ..) => secrets,
        }
    }

    /// Whether it is for people.
    pub(crate) fn is_short(self) -> bool {
        matches!(self, Form::Short(..))
    }

    /// Whether a line of this form has no such field.
    fn is_without(self, field: &Field<'_>) -> bool {
        match (self.is_short(), field.brief, field.held) {
            (_, _, Held::Usual) => true,
            (false, _, _) => false,
            (_, Brief::Without, _) | (_, Brief::Bare, Held::Absent) => true,
            (_, _, Held::List(list)) => list.is_empty(),
            _ => false,
        }
    }
}

/// Writes a name in small letters, with `-` between its words.
fn write_small_name<W: Write>(output: &mut W, name: &str) -> io::Result<()> {
    for (place, letter) in name.as_bytes().iter().enumerate() {
        if place > 0 && letter.is_ascii_uppercase() {
            output.write_all(b"-")?;
        }
        output.write_all(&[letter.to_ascii_lowercase()])?;
    }
    Ok(())
}

fn write_list<W: Write>(output: &mut W, form: Form, list: List<'_>) -> io::Result<()> {
    if form.is_short() {
        return write_elements(output, form, list);
    }
    output.write_all(b"(")?;
    write_elements(output, form, list)?;
    output.write_all(b")")
}

/// Writes what a field holds; of a secret that is hidden how many bytes it has, as `(20 bytes)`.
fn write_held<W: Write>(output: &mut W, form: Form, held: Held<'_>) -> io::Result<()> {
    match held {
        Held::Usual => Ok(()),
        Held::Absent => output.write_all(b"-"),
        Held::Number(number) => write!(output, "{number}"),
        Held::Bytes(bytes) => write_bytes(output, form, bytes),
        Held::State(state) => write_bytes(output, form, &state),
        Held::Secret(bytes) => match form.secrets() {
            Secrets::Shown => write_hexadecimal(output, bytes),
            Secrets::Hidden => write!(output, "({} bytes)", bytes.len()),
        },
        Held::List(list) => write_list(output, form, list),
    }
}

fn write_field<W: Write>(output: &mut W, form: Form, field: &Field<'_>) -> io::Result<()> {
    if form.is_without(field) {
        return Ok(());
    }
    let name = field.name;
    match (form.is_short(), field.brief) {
        (false, _) => write!(output, " {name}=")?,
        (_, Brief::Named) => write!(output, " {name} ")?,
        _ => output.write_all(b" ")?,
    }
    write_held(output, form, field.held)
}

/// Writes what an event says as a line of this form, without its end.
///
/// # Errors
/// - Those of the output.
/// - `OutOfMemory`: a growth of memory was refused, in a line that is short or has texts.
pub fn write_said<W: Write>(output: &mut W, form: Form, said: &Said<'_>) -> io::Result<()> {
    if form.is_short() {
        write_small_name(output, said.name)?;
    } else {
        output.write_all(said.name.as_bytes())?;
    }
    for field in said.fields.list.iter() {
        write_field(output, form, field)?;
    }
    Ok(())
}
