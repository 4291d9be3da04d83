//! What C sees of OK packets and of errors.

ghost use Rattle.std.specs.Prelude.{◌≡◌};
ghost use Rattle.mysql_ok_packets.specs.Views.{ok_packet_view};
ghost use Rattle.mysql_server_packets.specs.Views.{server_error_view};
ghost use Rattle.mysql_c_connection_events.specs.Shown.{error_shown, packet_shown};

use crate::shown::{ShownEvent, with_text};
use mysql_c_handles::start_of;
use mysql_ok_packets::OkPacket;
use mysql_server_packets::ServerError;

/// An OK packet of the server's, in an event of this kind.
pub fn telling_packet(kind: u32, ok: &OkPacket<'_>) -> ShownEvent
    ensures { result ≡ packet_shown kind (ok_packet_view ok.now) result }
{
    let states = ok.session_state_info_ref().unwrap_or(&[]);
    let mut shown = with_text(kind, 1, ok.info_ref().unwrap_or(&[]));
    shown.affected_rows = ok.affected_rows();
    shown.last_insert_id = ok.last_insert_id().unwrap_or(0);
    shown.status = ok.status_flags().0;
    shown.warnings = ok.warnings();
    shown.data = start_of(states);
    shown.data_len = states.len();
    shown
}

/// An error of the server's, in an event of this kind.
pub fn telling_error(kind: u32, error: &ServerError<'_>) -> ShownEvent
    ensures { result ≡ error_shown kind (server_error_view error.now) result }
{
    let mut shown = with_text(kind, 1, error.message_ref());
    shown.error_code = error.error_code();
    if let Some(state) = error.sql_state_ref() {
        shown.state = state.as_bytes();
        shown.state_len = 5;
    }
    shown
}
