//! What C sees of what is known of a session, and how it goes on without a connection.

ghost use Rattle.std.specs.Option.{option_map};
ghost use Rattle.std.specs.Prelude.{◌≡◌, ◌+◌};
ghost use Rattle.mysql_c_commands.specs.Known.{IsBehindText, flags_known, ok_telling, session_known, session_shown};
ghost use Rattle.mysql_c_commands.specs.Modes.{flagged, mode_number};
ghost use Rattle.mysql_session_modes.specs.SessionModes.{spelling_in};
ghost use Rattle.mysql_session_modes.specs.Told.{mode_behind_ok};
ghost use Rattle.mysql_ok_packets.specs.Views.{ok_packet_view};
ghost use Rattle.mysql_values.specs.Spelling.TheVariants.{Hexadecimal};

use crate::modes::mode_flags;
use mysql_session::{OkPacket, SessionMode, StatusFlags};
use mysql_values::Mode;
use std::borrow::CowSlice;

/// What is known of a session.
///
/// The flags are those by which a text is written for it. Then there are whether its character set
/// is known, and whether what its server tells next counts.
#[repr(C)]
#[derive(Clone, Copy)]
pub struct ShownSession {
    pub flags: u32,
    pub set_known: bool,
    pub counts: bool,
}

/// The flags that tell a mode, byte strings in hexadecimal.
fn hexadecimal_flags(mode: Option<Mode>) -> u32
    ensures told { flagged result ≡ option_map (λ mode. (mode, Hexadecimal)) mode }
    ensures flags { result ≡ mode_number mode + 4 }
{
    match mode {
        None => 12,
        Some(mode) => match (mode.no_backslash_escapes, mode.ansi_quotes) {
            (false, false) => 4,
            (true, false) => 5,
            (false, true) => 6,
            (true, true) => 7,
        },
    }
}

/// The flags of what is known of a session: its mode, and how byte strings are safe in its texts.
///
/// 8 is among them where the mode isn't known, and 4 unless the character set is known to be safe.
///
/// Promise: the flags tell exactly the mode and the spelling (`flagged`). They are these alone
/// (`flags_known`).
fn session_flags(session: SessionMode) -> u32
    ensures told { flagged result ≡ option_map (λ mode. (mode, spelling_in session)) session.mode }
    ensures flags { result ≡ flags_known session }
{
    match session.is_safe_set {
        Some(true) => mode_flags(session.mode),
        _ => hexadecimal_flags(session.mode),
    }
}

/// What is known by flags and whether what is told counts.
fn session_of(shown: &ShownSession) -> SessionMode
    ensures { result ≡ session_known shown.now }
{
    let mode = Mode {
        no_backslash_escapes: shown.flags & 1 == 1,
        ansi_quotes: shown.flags & 2 == 2,
    };
    SessionMode {
        mode: if shown.flags & 8 == 8 {
            None
        } else {
            Some(mode)
        },
        is_safe_set: if shown.set_known {
            Some(shown.flags & 4 != 4)
        } else {
            None
        },
        counts: shown.counts,
    }
}

/// Nothing is lost of what is shown of a session.
///
/// Promise: it is read back (`session_known`).
pub fn shown_is_known(session: SessionMode)
    ensures { session_known (session_shown session) ≡ session }
{
    match (session.mode, session.is_safe_set) {
        (None, None) | (None, Some(true)) | (None, Some(false)) => {}
        (Some(mode), None) | (Some(mode), Some(true)) | (Some(mode), Some(false)) => {
            match (mode.no_backslash_escapes, mode.ansi_quotes) {
                (false, false) | (true, false) | (false, true) | (true, true) => {}
            }
        }
    }
}

/// What C sees of what is known.
///
/// Promise: it is exactly that (`session_shown`). The flags tell calls with texts the mode and a
/// spelling that is safe, and no mode where it isn't known (`flagged`).
pub fn shown_session(session: SessionMode) -> ShownSession
    ensures shown { result ≡ session_shown session }
    ensures told { flagged result.flags ≡
        option_map (λ mode. (mode, spelling_in session)) session.mode }
{
    ShownSession {
        flags: session_flags(session),
        set_known: session.is_safe_set.is_some(),
        counts: session.counts,
    }
}

/// Goes on behind a statement that is sent as this text, or executed as it was prepared of it.
///
/// Promise: what is shown is known behind the text (`BehindText`).
///
/// (MySQL Reference Manual, "Stored Objects", "SET Syntax for Variable Assignment"; MariaDB Server
/// Documentation, "SET STATEMENT".)
pub fn session_behind_text(known: &mut ShownSession, text: &[u8])
    ensures { IsBehindText text.now known.old known.new }
{
    *known = shown_session(session_of(known).behind_text(text));
}

/// The OK packet with this status that tells these changes of the session, and nothing else.
fn packet_of(status: u16, changes: &[u8]) -> OkPacket<'_>
    ensures { ok_packet_view result ≡ ok_telling status changes.now }
{
    let told = Some(CowSlice::Borrowed(changes));
    OkPacket::new(0, None, StatusFlags(status), 0, None, told)
}

/// Goes on behind an OK packet of the reply, by its status and its changes of the session.
///
/// Promise: what is shown is known behind the packet (`mode_behind_ok`).
///
/// (MySQL: Client/Server Protocol, "OK_Packet", 'Session State Information'.)
pub fn session_behind_ok(known: &mut ShownSession, status: u16, changes: &[u8])
    ensures { known.new ≡
        session_shown (mode_behind_ok (session_known known.old) (ok_telling status changes.now)) }
{
    let packet = packet_of(status, changes);
    *known = shown_session(session_of(known).behind_ok(&packet));
}
