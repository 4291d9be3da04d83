//! What is kept behind an event of a reply, before anything changes.

ghost use Rattle.std.specs.Prelude.{◌≡◌, ℕ, ◌<◌, ◌^◌, List};
ghost use Rattle.mysql_connection_rules.specs.Standing as abouts;
ghost use Rattle.mysql_connection_rules.specs.Standing.{InReply as StandingReply};
ghost use Rattle.mysql_connection_rules.specs.Steps as steps;
ghost use Rattle.mysql_reply_events.specs.Views.{event_view as reply_view};
ghost use Rattle.mysql_connection_state.specs.Follows.{going_size as going_size_of};
ghost use Rattle.mysql_connection_state.specs.Follows.{whole_size as whole_size_of};
ghost use Rattle.mysql_connection_state.specs.Views.{about_view};

use crate::due::About;
use mysql_connection_statements::{Pending, Statements};
use mysql_reply_events::ReplyEvent;

// Of a statement that is being prepared.
fn preparing_size(statements: &Statements, size: usize, more: usize, event: &ReplyEvent) -> u128
    ensures size { (text : List ℕ) → result ≡
        going_size_of (abouts.Preparing text size) more (reply_view event.now) statements.now }
    ensures small { result < 2 ^ 70 }
{
    match event {
        ReplyEvent::Prepared {
            statement,
            columns_follow: _,
        } => statements.size_prepared(statement.statement_id(), size as u128 + more as u128),
        _ => statements.stored() as u128 + size as u128,
    }
}

// Of an execution.
fn executing_size(statements: &Statements, pending: &Pending, event: &ReplyEvent) -> u128
    ensures size { (more : ℕ) → result ≡
        going_size_of (abouts.Executing pending.now) more (reply_view event.now) statements.now }
    ensures small { result < 2 ^ 70 }
{
    match event {
        ReplyEvent::Progress(_) => {
            statements.stored() as u128 + statements.size_pending(pending)
        }
        ReplyEvent::Error(error) => statements.size_taken_back(error.error_code(), pending),
        _ => statements.stored() as u128,
    }
}

// Of a session that begins anew.
fn resetting_size(statements: &Statements, event: &ReplyEvent) -> u128
    ensures size { (more : ℕ) → result ≡
        (steps.changed_by abouts.Resetting more (reply_view event.now) statements.now).stored }
    ensures small { result < 2 ^ 64 }
{
    match event {
        ReplyEvent::Ok(_) => 0,
        _ => statements.stored() as u128,
    }
}

/// What is kept for the statements and for what a reply is about that goes on.
///
/// That is behind an event whose payload counts so much.
pub fn going_size(statements: &Statements, about: &About, more: usize, event: &ReplyEvent) -> u128
    ensures size { result ≡
        going_size_of (about_view about.now) more (reply_view event.now) statements.now }
    ensures small { result < 2 ^ 70 }
{
    match about {
        About::Preparing { text: _, size } => preparing_size(statements, *size, more, event),
        About::Executing(pending) => executing_size(statements, pending, event),
        About::Resetting => resetting_size(statements, event),
        About::Nothing | About::OfStatement(_) | About::Streaming(_) => {
            statements.stored() as u128
        }
    }
}

// Of a statement that was prepared, with its columns.
fn whole_preparing_size(
    statements: &Statements,
    size: usize,
    more: usize,
    coming: usize,
    event: &ReplyEvent,
) -> u128
    ensures size { (text : List ℕ) (r : StandingReply) → r.coming ≡ coming → result ≡
        whole_size_of r (abouts.Preparing text size) more (reply_view event.now) statements.now }
    ensures small { result < 2 ^ 70 }
{
    match event {
        ReplyEvent::Prepared {
            statement,
            columns_follow: _,
        } => {
            let size = size as u128 + more as u128;
            statements.size_prepared_with_columns(statement.statement_id(), size, coming)
        }
        _ => statements.stored() as u128,
    }
}

// Of an execution that was answered, with the columns of its result.
fn whole_executing_size(
    statements: &Statements,
    pending: &Pending,
    coming: usize,
    event: &ReplyEvent,
) -> u128
    ensures size { (more : ℕ) (r : StandingReply) → r.coming ≡ coming → result ≡
        whole_size_of r (abouts.Executing pending.now) more (reply_view event.now) statements.now }
    ensures small { result < 2 ^ 70 }
{
    match event {
        ReplyEvent::Progress(_) => statements.stored() as u128,
        ReplyEvent::Error(error) => {
            statements.size_taken_back_with_columns(error.error_code(), pending, coming)
        }
        _ => statements.size_with_columns(pending.id, coming),
    }
}

/// What is kept for the statements, where the reply is whole behind an event.
///
/// The event's payload counts so much, and the reply's columns take so much.
pub fn whole_size(
    statements: &Statements,
    about: &About,
    more: usize,
    coming: usize,
    event: &ReplyEvent,
) -> u128
    ensures size { (r : StandingReply) → r.coming ≡ coming → result ≡
        whole_size_of r (about_view about.now) more (reply_view event.now) statements.now }
    ensures small { result < 2 ^ 70 }
{
    match about {
        About::Preparing { text: _, size } => {
            whole_preparing_size(statements, *size, more, coming, event)
        }
        About::Executing(pending) => whole_executing_size(statements, pending, coming, event),
        About::OfStatement(id) => statements.size_with_columns(*id, coming),
        About::Resetting => resetting_size(statements, event),
        About::Nothing | About::Streaming(_) => statements.stored() as u128,
    }
}
