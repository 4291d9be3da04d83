//! Parameter sets as text queries.

ghost use Rattle.std.specs.Prelude.{◌≡◌, ◌≤◌, ℕ, IfErr, List, None, OnOk, false, length, take};
ghost use Rattle.mysql_values.specs.Queries.{first_not_alone as first_apart, is_mixed as has_both_kinds};
ghost use Rattle.mysql_command_rules.specs.OneSet.{AppendsOne, RefusesOne, first_sets};
ghost use Rattle.mysql_command_rules.specs.Reading.{SentReadable};
ghost use Rattle.mysql_command_rules.specs.Sending.{RefusesGiven};
ghost use Rattle.mysql_command_rules.specs.Sets.{Given, all_given, given_by};
ghost use Rattle.mysql_command_rules.specs.declared.road.Road.TheVariants as roads;
ghost use Rattle.mysql_send.specs.Refusing.{refusal_by};

use mysql_command_rules::Refusal;
use mysql_command_rules::in_turn::sent_in_turn;
use mysql_const::Command;
use mysql_queries::ParsedQuery;
use mysql_values::bind::bind_query_onto;
use mysql_values::laws::{pieces_of_a_query, tokens_of_a_text};
use mysql_values::{BindError, Params, SetError, Value};
use mysql_wire::frame_in_place;
use std::alloc::Global;

/// Whether a text query can carry literals in the query's placeholders.
///
/// # Errors
/// `Mixed`, then `NotAlone` with the first such placeholder.
///
/// MySQL Reference Manual, "PREPARE Statement" (parameter markers).
pub(crate) fn check_places(query: &ParsedQuery<'_>) -> Result<(), Refusal>
    ensures one_kind { OnOk result (has_both_kinds query.now.places ≡ false) }
    ensures alone { OnOk result (first_apart query.now.places ≡ None) }
    // Its sets are sent from here on, whichever they are.
    ensures begins { OnOk result ((sets : List (List ℕ) → List Given) (id limit : ℕ)
        (out : List ℕ) → SentReadable roads.Text query.now.sql (first_sets 0 sets) id limit out out) }
    ensures err { IfErr result (λ refusal. (sets : List (List ℕ) → List Given) (id limit : ℕ) →
        RefusesGiven roads.Text query.now.sql sets id limit refusal) }
{
    sent_in_turn();
    // For the proof alone: the placeholders are those of the text.
    let _places = query.places();
    if query.is_mixed() {
        return Err(Refusal::Mixed);
    }
    match query.first_not_alone() {
        Some(place) => Err(Refusal::NotAlone(place)),
        None => Ok(()),
    }
}

/// The refusal of a set for which no text is bound.
fn refusal_of(set: usize, error: BindError) -> Refusal
    ensures { result ≡ refusal_by set error }
{
    match error {
        BindError::Mixed => Refusal::Mixed,
        BindError::NotAlone(place) => Refusal::NotAlone(place),
        BindError::Params(error) => Refusal::Params(set, SetError::Params(error)),
        BindError::WrongCount => Refusal::WrongCount(set),
        BindError::Float(place) => Refusal::Float(set, place),
        BindError::Memory => Refusal::Memory,
    }
}

/// Appends the text query of the set of this number, framed and numbered from 0, behind room for
/// its header. A payload has at most `limit - 4` bytes. The lists `values` and `spare` keep their
/// room from set to set. After a refusal what stood before stands in front of `out`.
///
/// # Errors
/// `Params`, `WrongCount`, `Float`, `PacketTooLarge`; `Memory` where a growth was refused.
///
/// MySQL: Client/Server Protocol, "COM_QUERY".
pub(crate) fn put_query<'a>(
    query: &ParsedQuery<'_>,
    set: usize,
    params: &'a Params,
    limit: usize,
    values: &mut Vec<&'a Value>,
    spare: &mut Vec<u8>,
    out: &mut Vec<u8>,
) -> Result<(), Refusal>
    requires limit { 4 ≤ limit }
    requires one_kind { has_both_kinds query.now.places ≡ false }
    requires alone { first_apart query.now.places ≡ None }
    // A text query carries no id: this holds of each.
    ensures ok { OnOk result ((id : ℕ) →
        AppendsOne roads.Text query.now.sql id limit set (λ names. given_by names params.entry.now)
        out.old.items out.new.items) }
    ensures err { IfErr result (λ refusal. (id : ℕ) →
        RefusesOne roads.Text query.now.sql id limit set (λ names. given_by names params.entry.now)
        refusal) }
    ensures kept { take (length out.old.items) out.new.items ≡ out.old.items }
{
    pieces_of_a_query();
    tokens_of_a_text();
    // For the proof alone: the placeholders are those of the text.
    let _places = query.places();
    let start = out.len();
    out.extend_from_slice(&[0, 0, 0, 0, Command::COM_QUERY as u8])?;
    if let Err(error) = bind_query_onto(query, params, values, out) {
        return Err(refusal_of(set, error));
    }
    if out.len() - start > limit {
        return Err(Refusal::PacketTooLarge(set));
    }
    frame_in_place(0, start, spare, out)?;
    Ok(())
}

/// Appends the commands that carry parameter sets of a query to a server as text queries.
///
/// Each is framed as packets that are numbered from 0. There is a query for each set, its values as
/// literals in the places of the placeholders. They are for a server in the query's mode, in its
/// spelling. Sets and places count from 0; a payload has at most `limit - 4` bytes, as the limit
/// counts a packet with its header. After a refusal what stood before stands in front of `out`.
///
/// Promise: exactly what is stated for the road is appended, in a form that reads back, or the
/// first cause is answered (`SentReadable`, `RefusesGiven`).
///
/// # Errors
/// The first cause that holds, in the order of [`Refusal`]:
/// - `Mixed`.
/// - `NotAlone`.
/// - Set by set `Params`, `WrongCount`, `Float`, `PacketTooLarge`.
/// - `Memory` where a growth was refused.
///
/// MySQL: Client/Server Protocol, "COM_QUERY".
pub fn put_queries(
    alloc: Global,
    query: &ParsedQuery<'_>,
    sets: &[Params],
    limit: usize,
    out: &mut Vec<u8>,
) -> Result<(), Refusal>
    requires { 4 ≤ limit }
    // A text query carries no id: this holds of each.
    ensures ok { OnOk result ((id : ℕ) →
        SentReadable roads.Text query.now.sql (all_given sets.now) id limit out.old.items
        out.new.items) }
    ensures err { IfErr result (λ refusal. (id : ℕ) →
        RefusesGiven roads.Text query.now.sql (all_given sets.now) id limit refusal) }
    ensures kept { take (length out.old.items) out.new.items ≡ out.old.items }
{
    sent_in_turn();
    check_places(query)?;
    let (mut values, mut spare) = (Vec::new(alloc), Vec::new(alloc));
    'sets: for (set, params) in sets.iter().enumerate() {
        put_query(query, set, params, limit, &mut values, &mut spare, out)?;
    }
    Ok(())
}
