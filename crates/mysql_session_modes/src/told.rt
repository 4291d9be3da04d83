//! The variables `sql_mode` and `character_set_client` in what an OK packet tells of its session.

ghost use Rattle.std.specs.Prelude.{◌≡◌, ◌&&◌, Some, not};
ghost use Rattle.mysql_const.specs.FlagSets.{contains};
ghost use Rattle.mysql_bytes.specs.Modes.{mode_of_sql_mode};
ghost use Rattle.mysql_const.specs.SessionStates.{session_state_named};
ghost use Rattle.mysql_field_constants.specs.Constants.{named_at};
ghost use Rattle.mysql_fields.specs.Forms.{fixed_number_at};
ghost use Rattle.mysql_fields.specs.Wire.{Tells};
ghost use Rattle.mysql_ok_packets.specs.Views.{ok_packet_view};
ghost use Rattle.mysql_ok_packets.specs.SessionStates.{state_at, states_at, variable_at};
ghost use Rattle.mysql_session_modes.specs.SessionModes.{is_safe_set};
ghost use Rattle.mysql_session_modes.specs.Told.{known_behind, mode_behind_ok, more_results_bit};
ghost use Rattle.mysql_session_modes.specs.Told.Told.{Nothing, Unreadable};
ghost use Rattle.mysql_session_modes.specs.Told.{told_by_state, told_by_variable};
ghost use Rattle.mysql_session_modes.specs.Told.{told_by, told_by_variables, walked};
ghost use Rattle.mysql_session_modes.specs.Views.{told_view};

use crate::session_mode::SessionMode;
use crate::words::is_listed;
use bitflags::Flags;
use mysql_buf::ParseBuf;
use mysql_bytes::Mode;
use mysql_const::{SessionStateType, StatusFlags};
use mysql_fields::{WireError, read_lenenc_text};
use mysql_ok_packets::OkPacket;

// A system variable, where its bytes lie.
#[derive(Clone, Copy)]
struct Variable<'a> {
    name: &'a [u8],
    value: &'a [u8],
}

// A state of the session, where its bytes lie.
#[derive(Clone, Copy)]
struct State<'a> {
    data_type: SessionStateType,
    content: &'a [u8],
}

// The variable that stands first.
#[tactic(auto, unfolding(mysql_ok_packets::specs::SessionStates::variable_at))]
fn read_variable<'a>(buf: &mut ParseBuf<'a>) -> Result<Variable<'a>, WireError>
    ensures { Tells (λ v. record { name = v.name.now; value = v.value.now }) buf.old.0.now
        buf.new.0.now result (variable_at buf.old.0.now) }
{
    let mut rest = *buf;
    let name = read_lenenc_text(&mut rest)?;
    let value = read_lenenc_text(&mut rest)?;
    *buf = rest;
    Ok(Variable { name, value })
}

// The type that stands first.
fn read_type(buf: &mut ParseBuf<'_>) -> Result<SessionStateType, WireError>
    ensures { Tells (λ type. type) buf.old.0.now buf.new.0.now result
        (named_at session_state_named (fixed_number_at 1) buf.old.0.now) }
{
    let mut rest = *buf;
    let Some(number) = rest.checked_eat_u8() else {
        return Err(WireError::UnexpectedEof);
    };
    let Ok(data_type) = SessionStateType::try_from(number) else {
        return Err(WireError::UnknownValue);
    };
    *buf = rest;
    Ok(data_type)
}

// The state that stands first.
#[tactic(auto, unfolding(mysql_ok_packets::specs::SessionStates::state_at))]
fn read_state<'a>(buf: &mut ParseBuf<'a>) -> Result<State<'a>, WireError>
    ensures { Tells (λ s. record { data_type = s.data_type; content = s.content.now })
        buf.old.0.now buf.new.0.now result (state_at buf.old.0.now) }
{
    let mut rest = *buf;
    let data_type = read_type(&mut rest)?;
    let content = read_lenenc_text(&mut rest)?;
    *buf = rest;
    Ok(State { data_type, content })
}

/// What is told of a variable.
#[derive(Clone, Copy)]
pub enum Told<'a> {
    /// Nothing.
    Nothing,
    /// This value.
    Value(&'a [u8]),
    /// What can't be read.
    Unreadable,
}

// Behind a variable: of several values the last one counts.
fn by_variable<'a>(wanted: &[u8], told: Told<'a>, variable: Variable<'a>) -> Told<'a>
    ensures { told_view result ≡ told_by_variable wanted.now (told_view told.entry)
        (record { name = variable.entry.name.now; value = variable.entry.value.now }) }
{
    if variable.name == wanted {
        Told::Value(variable.value)
    } else {
        told
    }
}

// Behind all variables of a state.
fn by_variables<'a>(wanted: &[u8], before: Told<'a>, content: &'a [u8]) -> Told<'a>
    ensures { told_view result ≡ told_by_variables wanted.now (told_view before.entry) content.now }
{
    let mut told = before;
    let mut rest = ParseBuf(content);
    while !rest.is_empty() {
        let Ok(variable) = read_variable(&mut rest) else {
            return Told::Unreadable;
        };
        told = by_variable(wanted, told, variable);
    }
    told
}

// Behind a state.
fn by_state<'a>(wanted: &[u8], told: Told<'a>, state: State<'a>) -> Told<'a>
    ensures { told_view result ≡ told_by_state wanted.now (told_view told.entry)
        (record { data_type = state.entry.data_type; content = state.entry.content.now }) }
{
    match state.data_type {
        SessionStateType::SESSION_TRACK_SYSTEM_VARIABLES => {
            by_variables(wanted, told, state.content)
        }
        _ => told,
    }
}

// What these states tell.
fn by_states<'a>(wanted: &[u8], bytes: &'a [u8]) -> Told<'a>
    ensures { told_view result ≡ walked (told_by_state wanted.now) Unreadable Nothing (states_at bytes.now) }
{
    let mut told = Told::Nothing;
    let mut rest = ParseBuf(bytes);
    while !rest.is_empty() {
        let Ok(state) = read_state(&mut rest) else {
            return Told::Unreadable;
        };
        told = by_state(wanted, told, state);
    }
    told
}

// What a packet tells of a variable.
fn by_packet<'a>(wanted: &[u8], ok: &'a OkPacket<'_>) -> Told<'a>
    ensures { told_view result ≡ told_by wanted.now (ok_packet_view ok.now) }
{
    match ok.session_state_info_ref() {
        Some(bytes) => by_states(wanted, bytes),
        None => Told::Nothing,
    }
}

// The character sets in which quotes and backslashes are themselves.
//
// MySQL Reference Manual, "Supported Character Sets and Collations"; MariaDB Server Documentation,
// "Supported Character Sets and Collations".
const SAFE_SETS: [&[u8]; 28] = [
    b"utf8mb4",
    b"utf8mb3",
    b"utf8",
    b"ascii",
    b"binary",
    b"latin1",
    b"latin2",
    b"latin5",
    b"latin7",
    b"armscii8",
    b"cp1250",
    b"cp1251",
    b"cp1256",
    b"cp1257",
    b"cp850",
    b"cp852",
    b"cp866",
    b"dec8",
    b"geostd8",
    b"greek",
    b"hebrew",
    b"hp8",
    b"keybcs2",
    b"koi8r",
    b"koi8u",
    b"macce",
    b"macroman",
    b"tis620",
];

// What an OK packet with this status tells counts.
fn counted(session: SessionMode, status: StatusFlags) -> bool
    ensures { result ≡ (session.counts && not (contains status.0 more_results_bit)) }
{
    session.counts && !status.contains(StatusFlags::SERVER_MORE_RESULTS_EXISTS)
}

// The mode behind what is told of it.
fn mode_behind(counts: bool, told: Told<'_>, known: Option<Mode>) -> Option<Mode>
    ensures { result ≡ known_behind counts mode_of_sql_mode (told_view told.entry) known }
{
    match told {
        Told::Nothing => known,
        Told::Value(value) => {
            if counts {
                Mode::of_sql_mode(value)
            } else {
                None
            }
        }
        Told::Unreadable => None,
    }
}

// Whether the set is safe, behind what is told of it.
fn set_behind(counts: bool, told: Told<'_>, known: Option<bool>) -> Option<bool>
    ensures { result ≡ known_behind counts (λ name. Some (is_safe_set name)) (told_view told.entry) known }
{
    match told {
        Told::Nothing => known,
        Told::Value(name) => {
            if counts {
                Some(is_listed(name, &SAFE_SETS))
            } else {
                None
            }
        }
        Told::Unreadable => None,
    }
}

impl SessionMode {
    /// Behind an OK packet of the reply. It asks for no memory.
    ///
    /// Promise: what the packet tells last of `sql_mode` and of `character_set_client` is known. It isn't
    /// where further results follow, the text has the word STATEMENT, or it can't be read. What isn't
    /// told stays, whatever the status is (`mode_behind_ok`).
    ///
    /// MySQL: Client/Server Protocol, "OK_Packet", 'Session State Information'; MySQL Reference Manual,
    /// "Server Tracking of Client Session State".
    #[tactic(auto, unfolding(crate::specs::Told::mode_behind_ok))]
    pub fn behind_ok(self, ok: &OkPacket) -> SessionMode
        ensures { result ≡ mode_behind_ok self (ok_packet_view ok.now) }
    {
        let counts = counted(self, ok.status_flags());
        SessionMode {
            mode: mode_behind(counts, by_packet(b"sql_mode", ok), self.mode),
            is_safe_set: set_behind(
                counts,
                by_packet(b"character_set_client", ok),
                self.is_safe_set,
            ),
            counts: self.counts,
        }
    }
}
