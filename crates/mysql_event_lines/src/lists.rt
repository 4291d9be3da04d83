//! Lists that are fields.

use crate::form::Form;
use crate::values::{borrowed, write_bytes, write_cell, write_value};
use mysql_cells::Value;
use mysql_executions::{Attribute, BulkExecution, BulkValue, Execution};
use mysql_handshake_response::ConnectAttributes;
use mysql_row_refs::{RowRef, ValueRef};
use mysql_rows::Row;
use std::io;
use std::io::Write;

/// A list, by where it stands.
#[derive(Clone, Copy)]
pub(crate) enum List<'e> {
    /// The parameters of an execution.
    Parameters(&'e Execution),
    /// Attributes of a query, or those of this execution.
    Attributes(&'e [Attribute], Option<&'e Execution>),
    /// The sets of a bulk execution, each a list.
    Sets(&'e BulkExecution),
    /// The attributes of a connection.
    Pairs(&'e ConnectAttributes<'e>),
    /// The cells of a row.
    Cells(&'e Row),
    /// The cells of a row that is lent.
    LentCells(&'e RowRef<'e, 'e>),
}

impl<'e> List<'e> {
    /// Whether it has no element.
    pub(crate) fn is_empty(self) -> bool {
        match self {
            List::Parameters(execution) => execution.parameters.is_empty(),
            List::Attributes(attributes, _) => attributes.is_empty(),
            List::Sets(bulk) => bulk.rows.is_empty(),
            List::Pairs(attributes) => attributes.len() == 0,
            List::Cells(row) => row.len() == 0,
            List::LentCells(row) => row.len() == 0,
        }
    }
}

/// Writes what stands before an element: a space, but before the first one.
fn write_space<W: Write>(output: &mut W, place: usize) -> io::Result<()> {
    if place > 0 {
        output.write_all(b" ")?;
    }
    Ok(())
}

/// Writes a value, or `?` for one that servers read each their way. Of a cell another field has the
/// bytes, and long data was told before.
fn write_unless<W: Write>(
    output: &mut W,
    form: Form,
    is_unclear: bool,
    value: &Value,
) -> io::Result<()> {
    if is_unclear {
        return output.write_all(b"?");
    }
    write_value(output, form, borrowed(value))
}

fn write_parameters<W: Write>(output: &mut W, form: Form, execution: &Execution) -> io::Result<()> {
    for (place, value) in execution.parameters.iter().enumerate() {
        write_space(output, place)?;
        write_unless(output, form, execution.unclear.is_at(place), value)?;
    }
    Ok(())
}

/// Whether an attribute is unclear: one of an execution is counted behind the parameters.
fn is_unclear(execution: Option<&Execution>, place: usize) -> bool {
    match execution {
        Some(execution) => {
            let first = execution.parameters.len();
            execution.unclear.is_at(first.saturating_add(place))
        }
        None => false,
    }
}

/// Writes an attribute: `(NAME VALUE)`, or `NAME = VALUE` in a short line.
fn write_attribute<W: Write>(
    output: &mut W,
    form: Form,
    is_unclear: bool,
    attribute: &Attribute,
) -> io::Result<()> {
    let (open, between, close) = if form.is_short() {
        ("", " = ", "")
    } else {
        ("(", " ", ")")
    };
    output.write_all(open.as_bytes())?;
    write_bytes(output, form, attribute.bound_type.name.as_slice())?;
    output.write_all(between.as_bytes())?;
    write_unless(output, form, is_unclear, &attribute.value)?;
    output.write_all(close.as_bytes())
}

fn write_attributes<W: Write>(
    output: &mut W,
    form: Form,
    attributes: &[Attribute],
    execution: Option<&Execution>,
) -> io::Result<()> {
    for (place, attribute) in attributes.iter().enumerate() {
        write_space(output, place)?;
        write_attribute(output, form, is_unclear(execution, place), attribute)?;
    }
    Ok(())
}

/// Writes a set of a bulk execution, of which so many first values are clear.
fn write_set<W: Write>(
    output: &mut W,
    form: Form,
    set: &[BulkValue],
    clear: usize,
) -> io::Result<()> {
    output.write_all(b"(")?;
    for (place, value) in set.iter().enumerate() {
        write_space(output, place)?;
        match value {
            _ if place >= clear => output.write_all(b"?")?,
            BulkValue::Value(value) => write_value(output, form, borrowed(value))?,
            BulkValue::Default => output.write_all(b"default")?,
            BulkValue::Ignore => output.write_all(b"ignore")?,
        }
    }
    output.write_all(b")")
}

fn write_sets<W: Write>(output: &mut W, form: Form, bulk: &BulkExecution) -> io::Result<()> {
    let mut clear = match &bulk.unclear {
        Some(cells) => cells.first,
        None => usize::MAX,
    };
    for (place, set) in bulk.rows.iter().enumerate() {
        write_space(output, place)?;
        write_set(output, form, set.as_slice(), clear)?;
        clear = clear.saturating_sub(set.len());
    }
    Ok(())
}

fn write_pairs<W: Write>(
    output: &mut W,
    form: Form,
    attributes: &ConnectAttributes,
) -> io::Result<()> {
    for place in 0..attributes.len() {
        write_space(output, place)?;
        if let Some((key, value)) = attributes.pair(place) {
            output.write_all(b"(")?;
            write_bytes(output, form, key)?;
            output.write_all(b" ")?;
            write_bytes(output, form, value)?;
            output.write_all(b")")?;
        }
    }
    Ok(())
}

/// Writes the cells of a row; one that was taken is written as NULL is.
fn write_cells<W: Write>(output: &mut W, form: Form, row: &Row) -> io::Result<()> {
    for place in 0..row.len() {
        write_space(output, place)?;
        let cell = match row.as_ref(place) {
            Some(value) => borrowed(value),
            None => ValueRef::NULL,
        };
        write_cell(output, form, row.columns_ref().get(place), cell)?;
    }
    Ok(())
}

fn write_lent_cells<W: Write>(output: &mut W, form: Form, row: &RowRef<'_, '_>) -> io::Result<()> {
    for place in 0..row.len() {
        write_space(output, place)?;
        let cell = row.as_ref(place).unwrap_or(ValueRef::NULL);
        write_cell(output, form, row.columns_ref().get(place), cell)?;
    }
    Ok(())
}

/// Writes the elements of a list, with spaces between them.
pub(crate) fn write_elements<W: Write>(
    output: &mut W,
    form: Form,
    list: List<'_>,
) -> io::Result<()> {
    match list {
        List::Parameters(execution) => write_parameters(output, form, execution),
        List::Attributes(attributes, execution) => {
            write_attributes(output, form, attributes, execution)
        }
        List::Sets(bulk) => write_sets(output, form, bulk),
        List::Pairs(attributes) => write_pairs(output, form, attributes),
        List::Cells(row) => write_cells(output, form, row),
        List::LentCells(row) => write_lent_cells(output, form, row),
    }
}
