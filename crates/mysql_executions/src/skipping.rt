//! Cells that are passed over.

ghost use Rattle.std.specs.Prelude.{◌≡◌};
ghost use Rattle.std.specs.Option.{option_map};
ghost use Rattle.mysql_buf.specs.Reading.{bytes_at};
ghost use Rattle.mysql_executions.specs.Executions.{typed_value_at};

use crate::types::ParameterType;
use mysql_buf::ParseBuf;
use mysql_cells::CellForm;
use mysql_cells::cell_form::form;

/// What follows so many bytes.
fn behind(n: usize, bytes: &[u8]) -> Option<&[u8]>
    ensures { option_map (λ rest. rest.now) result ≡ option_map (λ x. x.1) (bytes_at n bytes.now) }
{
    let mut rest = ParseBuf(bytes);
    rest.checked_eat(n)?;
    Some(rest.0)
}

/// What follows the first cell, by its type.
#[tactic(auto, unfolding(mysql_cells::specs::Cells::cell_at))]
pub fn skip_typed_value(kind: ParameterType, bytes: &[u8]) -> Option<&[u8]>
    ensures { option_map (λ rest. rest.now) result ≡ option_map (λ x. x.1) (typed_value_at kind bytes.now) }
{
    let mut rest = ParseBuf(bytes);
    match form(u8::from(kind.column_type)) {
        CellForm::Nothing => Some(bytes),
        CellForm::Whole1 => behind(1, bytes),
        CellForm::Whole2 => behind(2, bytes),
        CellForm::Whole4 | CellForm::FloatBits => behind(4, bytes),
        CellForm::Whole8 | CellForm::DoubleBits => behind(8, bytes),
        CellForm::Counted => {
            rest.checked_eat_lenenc_str()?;
            Some(rest.0)
        }
        CellForm::DateAndTime | CellForm::Duration => {
            rest.checked_eat_u8_str()?;
            Some(rest.0)
        }
        CellForm::Without => None,
    }
}
