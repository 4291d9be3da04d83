//! What the words ask for.

ghost use Rattle.std.specs.Prelude.{◌≡◌, ◌<◌, ◌≤◌, ◌^◌, ◌↔◌, IfOk, IsErrOf, SomeIff};
ghost use Rattle.std.specs.Str.Parse.{IsNumeral, digits_value};
ghost use Rattle.mysql_command_line.specs.Words.{IsId, IsLimit};
ghost use Rattle.mysql_command_line.specs.declared.stop.Stop.TheVariants as stop;

use crate::stop::Stop;
use mysql_connection_lines::{Secrets, Texts};
use mysql_session::{Mode, Road, Spelling};

/// A query for a server in a mode, and how byte strings are spelled in its texts. With it go its
/// statement's id and the limit of its packets.
#[derive(Clone, Copy)]
pub(crate) struct Statement<'a> {
    pub(crate) query: &'a [u8],
    pub(crate) mode: Mode,
    pub(crate) spelling: Spelling,
    pub(crate) id: u32,
    pub(crate) limit: usize,
    ghost holds_a_header: { 4 ≤ limit },
}

/// What the words ask for.
#[derive(Clone, Copy)]
pub(crate) enum Task<'a> {
    /// One set sent by text, received and audited.
    WorkedRun,
    /// Parameter sets in JSON as commands.
    Encode(Road, Statement<'a>),
    /// What a stream of commands says, line by line.
    Audit(Statement<'a>),
    /// What a stream of commands says, line by line, as the stream comes.
    Follow(Statement<'a>),
    /// A stream of commands as executions.
    Recode(Statement<'a>),
    /// What the payloads of a connection say, of payloads no longer than this. Where nothing is said of
    /// texts, it is the output's.
    Connection(usize, Secrets, Option<Texts>),
    /// What the program knows.
    Help,
    /// The program's version.
    Version,
}

/// The number that these digits write. None where there is no digit or anything else, and where a
/// `usize` can't hold it.
fn whole_number(text: &str) -> Option<usize>
    ensures { SomeIff result (IsNumeral 10 text.now × (digits_value 10 text.now < 2 ^ 64)) (digits_value 10 text.now) }
{
    // `parse` lets a plus stand in front.
    if let [b'+', ..] = text.as_bytes() {
        return None;
    }
    text.parse().ok()
}

/// The method of this name.
fn road_of(word: &str) -> Result<Road, Stop> {
    match word.as_bytes() {
        b"text" => Ok(Road::Text),
        b"execute" => Ok(Road::Execute),
        b"bulk" => Ok(Road::Bulk),
        _ => Err(Stop::Usage),
    }
}

/// The statement of these words; `Usage` where the first is no id, then `BadLimit` where the second is no limit.
fn statement_of<'a>(
    id: &str,
    limit: &str,
    query: &'a str,
    mode: Mode,
    spelling: Spelling,
) -> Result<Statement<'a>, Stop>
    ensures statement { IfOk result (λ it. (it.query.now ≡ query.entry.now) × (it.mode ≡ mode) ×
        (it.spelling ≡ spelling) × (it.id ≡ digits_value 10 id.now) × (it.limit ≡ digits_value 10 limit.now)) }
    ensures usage { IsErrOf result stop.Usage ↔ ¬ IsId id.now }
    ensures bad_limit { IsErrOf result stop.BadLimit ↔ IsId id.now × ¬ IsLimit limit.now }
{
    let Some(id) = whole_number(id) else {
        return Err(Stop::Usage);
    };
    let Ok(id) = u32::try_from(id) else {
        return Err(Stop::Usage);
    };
    match whole_number(limit) {
        Some(limit) if limit >= 4 => Ok(Statement {
            query: query.as_bytes(),
            mode,
            spelling,
            id,
            limit,
        }),
        _ => Err(Stop::BadLimit),
    }
}

/// The mode with one more flag, by its name.
fn with_flag(mode: Mode, name: &str) -> Result<Mode, Stop> {
    let Mode {
        no_backslash_escapes,
        ansi_quotes,
    } = mode;
    match name.as_bytes() {
        b"no-backslash-escapes" => Ok(Mode {
            no_backslash_escapes: true,
            ansi_quotes,
        }),
        b"ansi-quotes" => Ok(Mode {
            no_backslash_escapes,
            ansi_quotes: true,
        }),
        _ => Err(Stop::Usage),
    }
}

/// The mode that these names between commas make.
fn mode_named(names: &str) -> Result<Mode, Stop> {
    let mut mode = Mode::default();
    for name in names.split(',') {
        mode = with_flag(mode, name)?;
    }
    Ok(mode)
}

/// The mode that the words begin with, the default one where they name none, and the words behind it.
fn mode_first(words: &[String]) -> Result<(Mode, &[String]), Stop> {
    match words {
        [word, names, rest @ ..] if word.as_str() == "--mode" => Ok((mode_named(names)?, rest)),
        _ => Ok((Mode::default(), words)),
    }
}

/// The spelling of byte strings that the words begin with, and the words behind it.
fn spelling_first(words: &[String]) -> (Spelling, &[String]) {
    match words {
        [word, rest @ ..] if word.as_str() == "--hex" => (Spelling::Hexadecimal, rest),
        _ => (Spelling::Quoted, words),
    }
}

/// What the words behind `encode` ask for.
fn encoding_of(words: &[String]) -> Result<Task<'_>, Stop> {
    let (mode, words) = mode_first(words)?;
    let (spelling, words) = spelling_first(words);
    match words {
        [road, id, limit, query] => {
            let road = road_of(road)?;
            let statement = statement_of(id, limit, query, mode, spelling)?;
            Ok(Task::Encode(road, statement))
        }
        _ => Err(Stop::Usage),
    }
}

/// The statement that the words behind another command name.
fn statement_in(words: &[String]) -> Result<Statement<'_>, Stop> {
    let (mode, words) = mode_first(words)?;
    let (spelling, words) = spelling_first(words);
    match words {
        [id, limit, query] => statement_of(id, limit, query, mode, spelling),
        _ => Err(Stop::Usage),
    }
}

/// What is shown of secrets by the words' beginning, and the words behind it.
fn secrets_first(words: &[String]) -> (Secrets, &[String]) {
    match words {
        [word, rest @ ..] if word.as_str() == "--secrets" => (Secrets::Shown, rest),
        _ => (Secrets::Hidden, words),
    }
}

/// How texts are printed by the words' beginning, and the words behind it.
fn texts_first(words: &[String]) -> (Option<Texts>, &[String]) {
    match words {
        [word, rest @ ..] if word.as_str() == "--text" => (Some(Texts::Quoted), rest),
        [word, rest @ ..] if word.as_str() == "--hex" => (Some(Texts::Hexadecimal), rest),
        _ => (None, words),
    }
}

/// What the words behind `connection` ask for.
fn connection_of(words: &[String]) -> Result<Task<'_>, Stop> {
    let (secrets, words) = secrets_first(words);
    let (texts, words) = texts_first(words);
    let [limit] = words else {
        return Err(Stop::Usage);
    };
    match whole_number(limit) {
        Some(limit) if limit >= 4 => Ok(Task::Connection(limit, secrets, texts)),
        _ => Err(Stop::BadLimit),
    }
}

/// Whether a word asks for what the program knows.
fn is_help(word: &str) -> bool {
    word == "help" || word == "--help" || word == "-h"
}

/// What the words ask for; `Usage` where they are none that the program knows, then `BadLimit`.
pub(crate) fn task_of(words: &[String]) -> Result<Task<'_>, Stop> {
    match words {
        [] => Ok(Task::WorkedRun),
        [command, words @ ..] if command.as_str() == "encode" => encoding_of(words),
        [command, words @ ..] if command.as_str() == "audit" => {
            Ok(Task::Audit(statement_in(words)?))
        }
        [command, words @ ..] if command.as_str() == "follow" => {
            Ok(Task::Follow(statement_in(words)?))
        }
        [command, words @ ..] if command.as_str() == "recode" => {
            Ok(Task::Recode(statement_in(words)?))
        }
        [command, words @ ..] if command.as_str() == "connection" => connection_of(words),
        [command] if is_help(command.as_str()) => Ok(Task::Help),
        [command] if command.as_str() == "--version" => Ok(Task::Version),
        _ => Err(Stop::Usage),
    }
}
