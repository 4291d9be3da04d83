//! Parameter sets as rows of bulk requests.

ghost use Rattle.std.specs.Prelude.{◌≡◌, ◌<◌, ◌++◌, ◌⊎◌, All, IfErr, IfOk, List, None, Ok, Err, OnOk, Some, length};
ghost use Rattle.std.specs.Cow.{cow_slice_items};
ghost use Rattle.std.specs.Prelude.{map};
ghost use Rattle.mysql_values.specs.Params.{values_over};
ghost use Rattle.mysql_values.specs.declared.params.ParamsError.{ParamsError as ParamsErrorOf};
ghost use Rattle.mysql_values.specs.declared.params.SetError.{SetError as SetErrorOf};
ghost use Rattle.mysql_bulk_builder.specs.Cut.{Row};
ghost use Rattle.mysql_bulk_builder.specs.RowLists.{row_in, rows_in};
ghost use Rattle.mysql_command_rules.specs.Sets.{given_by, given_up_to};
ghost use Rattle.mysql_command_rules.specs.declared.refusal.Refusal.TheVariants as refusals;
ghost use Rattle.mysql_send.specs.BulkSets.{AreRows, GivesRow, GivesRows, RefusesSet, RefusesSets};
ghost use Rattle.mysql_send.specs.Executions.{refusal_of};

use crate::bulk::target::Target;
use crate::execute::set_values::{check_values, refused, values_fit};
use mysql_command_rules::Refusal;
use mysql_values::params::list_values_over_names;
use mysql_values::{Params, SetError, Value};
use std::alloc::{AllocError, Global};

/// Appends references to the values of a list.
fn put_list<'a>(list: &'a [Value], values: &mut Vec<&'a Value>) -> Result<(), AllocError>
    ensures { OnOk result (row_in values.new.items ≡ row_in values.old.items ++ list.entry.now) }
{
    values.reserve(list.len())?;
    for value in list {
        values.push(value)?;
    }
    Ok(())
}

/// Appends the references.
fn put_references<'a>(row: &[&'a Value], values: &mut Vec<&'a Value>) -> Result<(), AllocError>
    ensures { OnOk result (row_in values.new.items ≡ row_in values.old.items ++ row_in row.now) }
{
    for value in row {
        values.push(*value)?;
    }
    Ok(())
}

/// Appends the values that a set gives the statement.
fn put_values_for<'a>(
    alloc: Global,
    statement: &Target<'_>,
    set: usize,
    params: &'a Params,
    values: &mut Vec<&'a Value>,
) -> Result<(), Refusal>
    ensures ok { OnOk result ((row : Row) ×
        (values_over (map cow_slice_items statement.now.names.now) params.entry.now ≡ Ok row) ×
        (row_in values.new.items ≡ row_in values.old.items ++ row)) }
    ensures err { IfErr result (λ refusal. (refusal ≡ refusals.Memory) ⊎
        ((e : ParamsErrorOf) × (values_over (map cow_slice_items statement.now.names.now) params.entry.now ≡ Err e) ×
        (refusal ≡ refusal_of set e))) }
{
    match params {
        Params::Positional(list) if statement.names.is_empty() => {
            put_list(list, values)?;
            Ok(())
        }
        _ => {
            let mut row = Vec::new(alloc);
            if let Err(error) = list_values_over_names(params, statement.names, &mut row) {
                return Err(refused(set, error));
            }
            put_references(&row, values)?;
            Ok(())
        }
    }
}

/// Appends the row that a set gives the statement.
fn put_row_of_set<'a>(
    alloc: Global,
    statement: &Target<'_>,
    set: usize,
    params: &'a Params,
    room: usize,
    values: &mut Vec<&'a Value>,
) -> Result<(), Refusal>
    ensures ok { OnOk result ((row : Row) ×
        GivesRow (record { places = statement.now.places; bytes = room }) set
        (given_by (map cow_slice_items statement.now.names.now) params.entry.now) row ×
        (length row ≡ statement.now.places) ×
        (row_in values.new.items ≡ row_in values.old.items ++ row)) }
    ensures err { IfErr result
        (RefusesSet (record { places = statement.now.places; bytes = room }) set
        (given_by (map cow_slice_items statement.now.names.now) params.entry.now)) }
{
    let start = values.len();
    put_values_for(alloc, statement, set, params, values)?;
    let row = &values[start..];
    check_values(row, statement.places, set)?;
    values_fit(row);
    Ok(())
}

/// Refuses the set behind so many ones that gives no values, where there is one.
fn check_stop(stop: Option<SetError>, sets: usize) -> Result<(), Refusal>
    ensures ok { OnOk result (stop ≡ None) }
    ensures err { IfErr result (λ refusal. (e : SetErrorOf) × (stop ≡ Some e) × (refusal ≡ refusals.Params sets e)) }
{
    match stop {
        Some(error) => Err(Refusal::Params(sets, error)),
        None => Ok(()),
    }
}

/// The values of the rows that the sets give the statement, one row after another. `stop` says why
/// one more set behind these gives no values, where there is one.
pub(crate) fn values_of_sets<'a>(
    alloc: Global,
    statement: &Target<'_>,
    sets: &'a [Params],
    stop: Option<SetError>,
    room: usize,
) -> Result<Vec<&'a Value>, Refusal>
    ensures ok { IfOk result (λ values. (rows : List Row) ×
        GivesRows (record { places = statement.now.places; bytes = room })
        (given_up_to sets.entry.now stop (map cow_slice_items statement.now.names.now)) rows ×
        AreRows statement.now.places (row_in values.items) rows) }
    ensures err { IfErr result
        (RefusesSets (record { places = statement.now.places; bytes = room })
        (given_up_to sets.entry.now stop (map cow_slice_items statement.now.names.now))) }
{
    let mut values = Vec::new(alloc);
    'sets: for (set, params) in sets.iter().enumerate() {
        put_row_of_set(alloc, statement, set, params, room, &mut values)?;
    }
    check_stop(stop, sets.len())?;
    Ok(values)
}

/// Values as rows of so many columns.
pub(crate) fn lent_rows<'a, 'b>(
    alloc: Global,
    values: &'b [&'a Value],
    columns: usize,
) -> Result<Vec<&'b [&'a Value]>, AllocError>
    requires { 0 < columns }
    ensures same { IfOk result (λ lent. (rows : List Row) →
        AreRows columns (row_in values.entry.now) rows → rows_in lent.items ≡ rows) }
    ensures wide { IfOk result (λ lent. All (λ row. length row.now ≡ columns) lent.items) }
{
    let mut lent = Vec::with_capacity(alloc, values.len() / columns)?;
    let mut start = 0;
    'rows: while columns <= values.len() - start {
        lent.push(&values[start..start + columns])?;
        start += columns;
    }
    Ok(lent)
}
