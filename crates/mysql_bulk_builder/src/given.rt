//! The rows and sets handed to an iterator of requests.

ghost use Rattle.std.specs.Prelude.{◌≡◌, None};

use crate::builder::ComStmtBulkExecuteRequestBuilder;
use crate::error::BulkExecuteRequestBuilderError;
use mysql_cells::Value;
use mysql_values::Params;
use std::vec::IntoIter;

/// What was not taken yet.
#[derive(Debug, Drop)]
pub enum Rest {
    Rows(IntoIter<Vec<Value>>),
    Sets(IntoIter<Params>),
}

/// What was not taken yet, and before it the row that came back.
#[derive(Debug, Drop)]
pub struct Given {
    pub back: Option<Vec<Value>>,
    pub rest: Rest,
}

impl Given {
    ghost use Rattle.mysql_bulk_builder.specs.Given.{giving};
    ghost use Rattle.mysql_bulk_builder.specs.Iteration.{TakesFirst};

    /// The first row, by the builder's names.
    pub(crate) fn next_row(
        &mut self,
        builder: &ComStmtBulkExecuteRequestBuilder<'_>,
    ) -> Result<Option<Vec<Value>>, BulkExecuteRequestBuilderError>
        ensures first { TakesFirst (giving builder.now.names self.old) result (giving builder.now.names self.new) }
        ensures back { self.new.back ≡ None }
    {
        if let Some(row) = self.back.take() {
            return Ok(Some(row));
        }
        match &mut self.rest {
            Rest::Rows(rows) => Ok(rows.next()),
            Rest::Sets(sets) => {
                match sets.next() {
                    None => Ok(None),
                    Some(params) => Ok(Some(builder.values_of(params)?)),
                }
            }
        }
    }
}
