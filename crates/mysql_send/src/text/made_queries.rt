//! Parameter sets that are made when their turn comes, as text queries.

ghost use Rattle.std.specs.Prelude.{◌≡◌, ◌≤◌, ℕ, IfErr, OnOk, length, take};
ghost use Rattle.mysql_command_rules.specs.MadeSets.{AllMade};
ghost use Rattle.mysql_command_rules.specs.Reading.{SentReadable};
ghost use Rattle.mysql_command_rules.specs.Sending.{RefusesGiven};
ghost use Rattle.mysql_command_rules.specs.declared.road.Road.TheVariants as roads;

use crate::text::text_queries::{check_places, put_query};
use mysql_command_rules::in_turn::{made_in_turn, sent_in_turn};
use mysql_command_rules::{Refusal, SetMaker, made_set};
use mysql_queries::ParsedQuery;
use std::alloc::Global;

/// Appends what [`put_queries`](crate::put_queries) appends, each set made when its turn comes.
///
/// A set is dropped when its query is appended.
///
/// # Errors
/// The first cause that holds, in the order of [`Refusal`]:
/// - `Mixed`.
/// - `NotAlone`.
/// - Set by set `Params`, `WrongCount`, `Float`, `PacketTooLarge`.
/// - `Memory` where a growth was refused.
///
/// MySQL: Client/Server Protocol, "COM_QUERY".
pub fn put_made_queries<S: SetMaker>(
    alloc: Global,
    query: &ParsedQuery<'_>,
    sets: &S,
    limit: usize,
    out: &mut Vec<u8>,
) -> Result<(), Refusal>
    requires { 4 ≤ limit }
    // A text query carries no id: this holds of each.
    ensures ok { OnOk result ((id : ℕ) →
        SentReadable roads.Text query.now.sql (S.given sets.now) id limit out.old.items
        out.new.items) }
    ensures made { OnOk result (AllMade (S.given sets.now)) }
    ensures err { IfErr result (λ refusal. (id : ℕ) →
        RefusesGiven roads.Text query.now.sql (S.given sets.now) id limit refusal) }
    ensures kept { take (length out.old.items) out.new.items ≡ out.old.items }
{
    sent_in_turn();
    made_in_turn();
    check_places(query)?;
    let mut spare = Vec::new(alloc);
    for number in 0..sets.len() {
        let params = made_set(alloc, sets, number)?;
        let mut values = Vec::new(alloc);
        put_query(query, number, &params, limit, &mut values, &mut spare, out)?;
    }
    Ok(())
}
