//! Cells that are read where they lie.

ghost use Rattle.std.specs.Prelude.{◌≡◌, ◌≢◌, ◌<◌, Err, IfNone, IfOk, IfSome, IsSome, None, Ok, Some, drop, get_or};
ghost use Rattle.std.specs.Prelude.{length, true};
ghost use Rattle.mysql_buf.specs.Reading.{lenenc_str_at, u8_str_at};
ghost use Rattle.mysql_fields.specs.Wire.{TellsPart, or_end};
ghost use Rattle.mysql_fields.specs.declared.error.WireError.TheVariants as wire;
ghost use Rattle.mysql_cells.specs.Cells.{column_cell_at, has_no_sign, text_cell_at, value_at};
ghost use Rattle.mysql_columns.specs.Views.{column_view};
ghost use Rattle.mysql_cells.specs.declared.cell_form.CellForm.TheVariants as cell_form;
ghost use Rattle.mysql_row_refs.specs.Places.{IsTail, bytes_read, held, is_inside};

use crate::cell_values::whole8;
use crate::place::CellPlace;
use bitflags::Flags;
use mysql_buf::ParseBuf;
use mysql_cells::cell_form::{CellForm, form_of_type};
use mysql_cells::cell_values::{whole1, whole2, whole4};
use mysql_columns::Column;
use mysql_const::{ColumnFlags, ColumnType};
use mysql_fields::WireError;

/// The place of the length-encoded bytes that stand first.
#[inline(always)]
fn lenenc_place(payload: &[u8], rest: &mut ParseBuf) -> Option<usize>
    requires { IsTail payload.now rest.old.0.now }
    ensures some { IfSome result (λ at. lenenc_str_at rest.old.0.now ≡
        Some (bytes_read (lenenc_str_at (drop at payload.now)), rest.new.0.now)) }
    ensures inside { IfSome result (λ at. IsSome (lenenc_str_at (drop at payload.now))) }
    ensures none { result ≡ None → lenenc_str_at rest.old.0.now ≡ None }
{
    let at = payload.len() - rest.len();
    rest.checked_eat_lenenc_str()?;
    Some(at)
}

/// The place of the bytes that stand first behind a length of one byte.
#[inline(always)]
fn short_place(payload: &[u8], rest: &mut ParseBuf) -> Option<usize>
    requires { IsTail payload.now rest.old.0.now }
    ensures some { IfSome result (λ at. u8_str_at rest.old.0.now ≡
        Some (bytes_read (u8_str_at (drop at payload.now)), rest.new.0.now)) }
    ensures inside { IfSome result (λ at. IsSome (u8_str_at (drop at payload.now))) }
    ensures none { result ≡ None → u8_str_at rest.old.0.now ≡ None }
{
    let at = payload.len() - rest.len();
    rest.checked_eat_u8_str()?;
    Some(at)
}

/// The place of the length-encoded bytes that stand first, whose length has one byte, as most have.
#[inline(always)]
#[tactic(auto, using(crate::proofs::Tails::one_byte))]
fn one_byte_place(payload: &[u8], rest: &mut ParseBuf) -> Option<usize>
    requires tail { IsTail payload.now rest.old.0.now }
    requires some { 0 < length rest.old.0.now }
    requires one_byte { get_or rest.old.0.now 0 0 < 251 }
    ensures some { IfSome result (λ at. lenenc_str_at rest.old.0.now ≡
        Some (bytes_read (lenenc_str_at (drop at payload.now)), rest.new.0.now)) }
    ensures inside { IfSome result (λ at. IsSome (lenenc_str_at (drop at payload.now))) }
    ensures none { result ≡ None → lenenc_str_at rest.old.0.now ≡ None }
{
    let at = payload.len() - rest.len();
    rest.checked_eat_u8_str()?;
    Some(at)
}

/// The place of the length-encoded bytes that stand first. Most have a length of one byte.
#[inline(always)]
fn counted_place(payload: &[u8], rest: &mut ParseBuf) -> Option<usize>
    requires { IsTail payload.now rest.old.0.now }
    ensures some { IfSome result (λ at. lenenc_str_at rest.old.0.now ≡
        Some (bytes_read (lenenc_str_at (drop at payload.now)), rest.new.0.now)) }
    ensures inside { IfSome result (λ at. IsSome (lenenc_str_at (drop at payload.now))) }
    ensures none { result ≡ None → lenenc_str_at rest.old.0.now ≡ None }
{
    match rest.0 {
        [first, ..] if *first < 251 => one_byte_place(payload, rest),
        _ => lenenc_place(payload, rest),
    }
}

/// The cell that stands first, by the form of its type's cells; None where the bytes end before it does.
#[inline(always)]
fn form_place(
    payload: &[u8],
    form: CellForm,
    unsigned: bool,
    rest: &mut ParseBuf,
) -> Option<CellPlace>
    requires { IsTail payload.now rest.old.0.now }
    ensures some { IfSome result (λ place. value_at form unsigned rest.old.0.now ≡
        Ok (held payload.now place, rest.new.0.now)) }
    ensures inside { IfSome result (λ place. is_inside payload.now place ≡ true) }
    ensures none { IfNone result (form ≢ cell_form.Without →
        value_at form unsigned rest.old.0.now ≡ Err wire.UnexpectedEof) }
{
    match form {
        CellForm::Nothing => Some(CellPlace::Null),
        CellForm::Whole1 => Some(CellPlace::Int(whole1(unsigned, rest.checked_eat_u8()?))),
        CellForm::Whole2 => Some(CellPlace::Int(whole2(unsigned, rest.checked_eat_u16_le()?))),
        CellForm::Whole4 => Some(CellPlace::Int(whole4(unsigned, rest.checked_eat_u32_le()?))),
        CellForm::Whole8 => Some(whole8(unsigned, rest.checked_eat_u64_le()?)),
        CellForm::FloatBits => Some(CellPlace::Float(rest.checked_eat_u32_le()?)),
        CellForm::DoubleBits => Some(CellPlace::Double(rest.checked_eat_u64_le()?)),
        CellForm::Counted => Some(CellPlace::Bytes(counted_place(payload, rest)?)),
        CellForm::DateAndTime => Some(CellPlace::Date(short_place(payload, rest)?)),
        CellForm::Duration => Some(CellPlace::Time(short_place(payload, rest)?)),
        CellForm::Without => None,
    }
}

/// Whether a column's whole numbers have no sign.
#[inline(always)]
fn without_sign(flags: ColumnFlags) -> bool
    ensures { result ≡ has_no_sign flags }
{
    flags.contains(ColumnFlags::UNSIGNED_FLAG)
}

/// The binary cell that stands first, by its column's type and flags. What is left after a refusal isn't said.
#[inline(always)]
#[tactic(auto, unfolding(mysql_cells::specs::Cells::cell_at), using(mysql_cells::proofs::Forms::form_by_number))]
pub fn binary_place(
    payload: &[u8],
    column: &Column,
    rest: &mut ParseBuf,
) -> Result<CellPlace, WireError>
    requires { IsTail payload.now rest.old.0.now }
    ensures cell { TellsPart (held payload.now) rest.new.0.now result
        (column_cell_at ((column_view column.now).column_type, (column_view column.now).flags)
        rest.old.0.now) }
    ensures inside { IfOk result (λ place. is_inside payload.now place ≡ true) }
{
    match form_of_type(column.column_type()) {
        CellForm::Without => Err(WireError::UnsupportedType),
        form => {
            let place = form_place(payload, form, without_sign(column.flags()), rest);
            place.ok_or(WireError::UnexpectedEof)
        }
    }
}

/// The text cell that stands first. What is left after a refusal isn't said.
#[inline(always)]
#[tactic(auto, unfolding(mysql_cells::specs::Cells::text_cell_at))]
pub fn text_place(payload: &[u8], rest: &mut ParseBuf) -> Result<CellPlace, WireError>
    requires { IsTail payload.now rest.old.0.now }
    ensures cell { TellsPart (held payload.now) rest.new.0.now result (text_cell_at rest.old.0.now) }
    ensures inside { IfOk result (λ place. is_inside payload.now place ≡ true) }
{
    match rest.0 {
        [] => Err(WireError::UnexpectedEof),
        [first, ..] if *first < 251 => match one_byte_place(payload, rest) {
            Some(at) => Ok(CellPlace::Bytes(at)),
            None => Err(WireError::UnexpectedEof),
        },
        [251, behind @ ..] => {
            *rest = ParseBuf(behind);
            Ok(CellPlace::Null)
        }
        [255, ..] => Err(WireError::BadLength),
        _ => match lenenc_place(payload, rest) {
            Some(at) => Ok(CellPlace::Bytes(at)),
            None => Err(WireError::UnexpectedEof),
        },
    }
}
