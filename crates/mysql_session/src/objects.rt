//! Lists of objects as commands.

ghost use Rattle.std.specs.Prelude.{◌≡◌, ◌≤◌, IfErr, IfOk, IfSome, MatchResult, OnErr, OnOk, Some, false, length, map};
ghost use Rattle.std.specs.Prelude.{take};
ghost use Rattle.mysql_convert.specs.Sets.{IsMadeOf, too_long};
ghost use Rattle.mysql_convert.specs.Sets.Parts.{InOrder};
ghost use Rattle.mysql_session.specs.Delivery.{Delivers};
ghost use Rattle.mysql_session.specs.Made.{AreMadeUpTo};
ghost use Rattle.mysql_session.specs.Objects.{all_given_by_objects};
ghost use Rattle.mysql_command_rules.specs.MadeSets.{is_want_of_memory};
ghost use Rattle.mysql_command_rules.specs.Reading.{SentReadable};
ghost use Rattle.mysql_command_rules.specs.Sending.{RefusesGiven};
ghost use Rattle.mysql_command_rules.specs.declared.road.Road.TheVariants as roads;
ghost use Rattle.mysql_values.specs.Sql.{read_by_default};

use crate::laws::readable_sets_are_delivered;
use mysql_buf::laws::are_bytes;
use mysql_command_rules::{Refusal, Road, SetMaker};
use mysql_convert::{IntoParams, ToValue};
use mysql_send::{Statement, put_made_executions, put_made_queries, put_requests};
use mysql_values::bind::ParsedQuery;
use mysql_values::{Params, SetError};
use std::alloc::{AllocError, Global};

/// The sets of the first lists, and why the list behind them makes none.
#[derive(Drop)]
struct MadeSets {
    sets: Vec<Params>,
    refusal: Option<SetError>,
}

/// A set of the objects' values, or why they make none: memory that is refused is a refusal by
/// itself.
fn set_or_refusal<T: ToValue>(
    alloc: Global,
    objects: &[T],
) -> Result<Result<Params, SetError>, AllocError>
    ensures made { IfOk result
        (λ made. MatchResult made (λ set. IsMadeOf (InOrder (map T.as_value objects.now)) set)
        (λ error. too_long 0 (map T.as_value objects.now) ≡ Some error)) }
    ensures why { IfOk result (λ made. IfErr made (λ error. is_want_of_memory error ≡ false)) }
{
    let error = match objects.to_params(alloc) {
        Ok(params) => return Ok(Ok(params)),
        Err(error) => error,
    };
    match error {
        SetError::Memory => Err(AllocError),
        SetError::TooLong(place) => Ok(Err(SetError::TooLong(place))),
        SetError::Redefined(name) => Ok(Err(SetError::Redefined(name))),
        SetError::Params(error) => Ok(Err(SetError::Params(error))),
    }
}

/// Lists of objects, each of which makes a set when it is asked for.
#[derive(Drop)]
struct Lists<'a, T> {
    lists: &'a [Vec<T>],
}

impl<T: ToValue> SetMaker for Lists<'_, T> {
    ghost given = { λ it. all_given_by_objects (map (λ list. map T.as_value list.items) it.lists.now) };

    fn len(&self) -> usize {
        self.lists.len()
    }

    fn set(&self, alloc: Global, number: usize) -> Result<Result<Params, SetError>, AllocError> {
        set_or_refusal(alloc, &self.lists[number])
    }
}

/// The sets of the objects' values, up to the first list that makes none.
fn sets_of_objects(
    alloc: Global,
    lists: &[Vec<Box<dyn ToValue + Drop>>],
) -> Result<MadeSets, AllocError>
    ensures made { IfOk result
        (λ made. AreMadeUpTo (map (λ list. map (λ object. as_value object) list.items) lists.now)
        made.sets.items made.refusal) }
    ensures why { IfOk result (λ made. IfSome made.refusal (λ error. is_want_of_memory error ≡ false)) }
{
    let mut sets = Vec::with_capacity(alloc, lists.len())?;
    for list in lists {
        match set_or_refusal(alloc, list)? {
            Ok(params) => sets.push_reserved(params),
            Err(error) => {
                return Ok(MadeSets {
                    sets,
                    refusal: Some(error),
                });
            }
        }
    }
    Ok(MadeSets {
        sets,
        refusal: None,
    })
}

/// Appends bulk requests with the sets of all lists. All are made first, since the requests are cut
/// over all of them.
fn put_held_sets(
    alloc: Global,
    query: &[u8],
    lists: &[Vec<Box<dyn ToValue + Drop>>],
    stmt_id: u32,
    limit: usize,
    out: &mut Vec<u8>,
) -> Result<(), Refusal>
    requires { 4 ≤ limit }
    ensures ok { OnOk result (SentReadable roads.Bulk (read_by_default query.now)
        (all_given_by_objects (map (λ list. map (λ object. as_value object) list.items) lists.now))
        stmt_id limit out.old.items out.new.items) }
    ensures err { IfErr result
        (RefusesGiven roads.Bulk (read_by_default query.now)
        (all_given_by_objects (map (λ list. map (λ object. as_value object) list.items) lists.now))
        stmt_id limit) }
    ensures kept { take (length out.old.items) out.new.items ≡ out.old.items }
{
    let MadeSets { sets, refusal } = sets_of_objects(alloc, lists)?;
    let statement = Statement::new(alloc, query, stmt_id)?;
    put_requests(alloc, &statement, &sets, refusal, limit, out)
}

/// Appends the commands of the sets of lists of objects: but by bulk each is made when its turn
/// comes. After a refusal `out` begins with what it had before.
fn put_lists(
    alloc: Global,
    query: &[u8],
    lists: &[Vec<Box<dyn ToValue + Drop>>],
    road: Road,
    stmt_id: u32,
    limit: usize,
    out: &mut Vec<u8>,
) -> Result<(), Refusal>
    requires { 4 ≤ limit }
    ensures refused { IfErr result
        (RefusesGiven road (read_by_default query.now)
        (all_given_by_objects (map (λ list. map (λ object. as_value object) list.items) lists.now))
        stmt_id limit) }
    ensures kept { take (length out.old.items) out.new.items ≡ out.old.items }
    ensures sent { OnOk result
        (SentReadable road (read_by_default query.now)
        (all_given_by_objects (map (λ list. map (λ object. as_value object) list.items) lists.now))
        stmt_id limit out.old.items out.new.items) }
{
    let sets = Lists { lists };
    match road {
        Road::Text => {
            let query = ParsedQuery::new(alloc, query)?;
            put_made_queries(alloc, &query, &sets, limit, out)
        }
        Road::Execute => {
            let statement = Statement::new(alloc, query, stmt_id)?;
            put_made_executions(alloc, &statement, &sets, limit, out)
        }
        Road::Bulk => put_held_sets(alloc, query, lists, stmt_id, limit, out),
    }
}

/// Appends to `out` the commands that carry lists of objects to a server.
///
/// They are what [`send`](crate::send) appends of parameter sets of the objects' values, in order,
/// one set for each list. A list without objects is the empty set. `receive` with the same query,
/// id and limit reads back what the values mean.
///
/// `limit` counts as [`send`](crate::send) has it. By text **safe for** the servers that
/// `mysql_values::bind_text` names; by execute and bulk for any.
///
/// Promise: what [`send`](crate::send) promises, of the values of each list in order
/// (`all_given_by_objects`, `Delivers`).
///
/// # Errors
/// The first cause that holds, in the order of [`Refusal`]:
/// - `Mixed`.
/// - By text `NotAlone`.
/// - By execute and bulk `TooManyPlaces`, `PrepareTooLarge`.
/// - By bulk `NoPlaces`.
/// - List by list `Params` with `TooLong` and the least position whose object is too long for a
///   value. `Params` with `PositionalParamsForNamedQuery` is where a query with names is given
///   objects. Then come `WrongCount`, `Float`, and but by bulk `PacketTooLarge`.
/// - By bulk over all lists `MixedKinds`, `RowTooLarge`.
/// - `Memory` where a growth was refused.
///
/// `out` is as it was after an error.
///
/// (MySQL: Client/Server Protocol, "COM_QUERY", "COM_STMT_PREPARE", "COM_STMT_SEND_LONG_DATA",
/// "COM_STMT_EXECUTE"; MariaDB: Client/Server Protocol, "COM_STMT_BULK_EXECUTE".)
pub fn send_values(
    alloc: Global,
    query: &[u8],
    sets: &[Vec<Box<dyn ToValue + Drop>>],
    road: Road,
    stmt_id: u32,
    limit: usize,
    out: &mut Vec<u8>,
) -> Result<(), Refusal>
    requires { 4 ≤ limit }
    ensures refused { IfErr result
        (RefusesGiven road (read_by_default query.now)
        (all_given_by_objects (map (λ set. map (λ object. as_value object) set.items) sets.now))
        stmt_id limit) }
    ensures kept { OnErr result (out.new.items ≡ out.old.items) }
    ensures delivered { OnOk result
        (Delivers road (read_by_default query.now) (all_given_by_objects
        (map (λ set. map (λ object. as_value object) set.items) sets.now)) stmt_id limit
        out.old.items out.new.items) }
{
    readable_sets_are_delivered();
    let start = out.len();
    let sent = put_lists(alloc, query, sets, road, stmt_id, limit, out);
    are_bytes(out.as_slice());
    if sent.is_err() {
        out.truncate(start);
    }
    sent
}
