//! Iterators of bulk execute requests.

ghost use Rattle.std.specs.Prelude.{◌≡◌};
ghost use Rattle.std.specs.Iterator.{at_most};
ghost use Rattle.mysql_bulk_builder.specs.Given.{giving};
ghost use Rattle.mysql_bulk_builder.specs.Iteration.{Fills};

use crate::ComStmtBulkExecuteRequest;
use crate::builder::ComStmtBulkExecuteRequestBuilder;
use crate::error::BulkExecuteRequestBuilderError;
use crate::given::{Given, Rest};
use mysql_cells::Value;
use mysql_values::Params;

/// The requests of a builder's rows and of those handed in, as few as there can be.
///
/// Each request takes as many rows as it has room for. An error is the last item; the rows before
/// the one that it speaks of stay with the builder.
///
/// Promise: the requests fit, and are those of the one cut in which each takes as many rows as
/// there is room for. No cut that fits has fewer (`IsTightTyped`).
#[derive(Debug, Drop)]
pub struct BulkRequests<'b, 'a> {
    builder: &'b mut ComStmtBulkExecuteRequestBuilder<'a>,
    given: Given,
    ended: bool,
}

/// Adds the first rows, as many as there is room for.
fn fill(
    builder: &mut ComStmtBulkExecuteRequestBuilder<'_>,
    given: &mut Given,
) -> Result<(), BulkExecuteRequestBuilderError>
    ensures { Fills builder.old (giving builder.old.names given.old) builder.new
        (giving builder.new.names given.new) result }
{
    while let Some(row) = given.next_row(builder)? {
        if let Some(back) = builder.add_row(row)? {
            given.back = Some(back);
            return Ok(());
        }
    }
    Ok(())
}

impl<'b, 'a> Iterator for BulkRequests<'b, 'a> {
    ghost use Rattle.std.specs.Prelude.{◌≡◌};
    ghost use Rattle.std.specs.Iterator.{at_most};
    ghost use Rattle.mysql_bulk_builder.specs.Iteration.{Gives, items_left};
    ghost use Rattle.mysql_bulk_builder.specs.IteratorView.{iteration};

    type Item = Result<ComStmtBulkExecuteRequest, BulkExecuteRequestBuilderError>;

    ghost next_gives = { λ old item new. (new.builder.ghost_name ≡ old.builder.ghost_name) ×
        Gives (iteration old) item (iteration new) };

    ghost remaining = { λ it. at_most (items_left (iteration it)) };

    fn next(
        &mut self,
    ) -> Option<Result<ComStmtBulkExecuteRequest, BulkExecuteRequestBuilderError>> {
        if self.ended {
            return None;
        }
        if let Err(error) = fill(self.builder, &mut self.given) {
            self.ended = true;
            return Some(Err(error));
        }
        if !self.builder.has_rows() {
            self.ended = true;
            return None;
        }
        match self.builder.build() {
            Ok(request) => Some(Ok(request)),
            Err(error) => {
                self.ended = true;
                Some(Err(BulkExecuteRequestBuilderError::from(error)))
            }
        }
    }
}

impl<'a> ComStmtBulkExecuteRequestBuilder<'a> {
    ghost use Rattle.std.specs.Prelude.{◌≡◌, Ok, map, false};
    ghost use Rattle.mysql_values.specs.Params.{values_over};
    ghost use Rattle.mysql_bulk_builder.specs.IteratorView.{iteration};

    /// The requests of the rows held and of these rows.
    pub fn build_iter<'b>(&'b mut self, rows: Vec<Vec<Value>>) -> BulkRequests<'b, 'a>
        ensures same { result.builder.ghost_name ≡ self.entry.ghost_name }
        ensures begins { iteration result ≡
            record {
              builder = self.old;
              given = map (λ row. Ok row.items) rows.items;
              ended =
                  false;
            } }
    {
        BulkRequests {
            builder: self,
            given: Given {
                back: None,
                rest: Rest::Rows(rows.into_iter()),
            },
            ended: false,
        }
    }

    /// The requests of the rows held and of the rows that these sets give over the builder's names.
    pub fn build_params_iter<'b>(&'b mut self, params: Vec<Params>) -> BulkRequests<'b, 'a>
        ensures same { result.builder.ghost_name ≡ self.entry.ghost_name }
        ensures begins { iteration result ≡
            record {
              builder = self.old;
              given =
                  map (λ set. values_over self.old.names set) params.items;
              ended = false;
            } }
    {
        BulkRequests {
            builder: self,
            given: Given {
                back: None,
                rest: Rest::Sets(params.into_iter()),
            },
            ended: false,
        }
    }
}
