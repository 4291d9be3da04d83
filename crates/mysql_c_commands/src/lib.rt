//! Commands and logins for C. Commands: receivers of their streams, parameter sets that are put
//! together and sent, texts of these, and recoders. Logins: packets cut out of a stream, greetings,
//! logins, and a replica's requests for the binary log.
//!
//! Each public function is a call of the library for C, with the contract of its export in
//! `mysql_c`. The modules are apart: `greeting`, `login`, `packets`, `gtids`, `replication` are of
//! logging in, and `shown_text` and `putting` are what these share.
#![tactic(auto)]

mod counting;
mod digests;
mod executing;
mod greeting;
mod gtids;
mod known;
mod login;
mod modes;
mod packets;
mod parameter;
mod putting;
mod receiver;
mod recoder;
mod replication;
mod sending;
mod sets;
mod shown;
mod shown_text;
mod texts;

pub use counting::place_count;
pub use digests::digest_put;
pub use executing::execution_put;
pub use greeting::{ShownGreeting, greeting_put, greeting_read};
pub use known::{
    ShownSession, session_behind_ok, session_behind_text, shown_is_known, shown_session,
};
pub use login::{ShownLogin, login_put, login_read};
pub use modes::{is_safe_to_quote, mode_of_sql_mode, mode_of_status};
pub use packets::{packet_put, packets_feed, packets_new, packets_payload, packets_restart};
pub use parameter::Parameter;
pub use receiver::{
    receiver_clear, receiver_content, receiver_end, receiver_feed, receiver_new, receiver_sets,
    receiver_width,
};
pub use recoder::{recoder_end, recoder_feed, recoder_new};
pub use replication::{binlog_dump_gtid_put, binlog_dump_put, register_replica_put};
pub use sending::send;
pub use sets::{
    sets_add, sets_clear, sets_count, sets_end_set, sets_new, sets_push_bytes, sets_push_date,
    sets_push_double, sets_push_float, sets_push_int, sets_push_null, sets_push_time,
    sets_push_uint,
};
pub use shown::{ShownContent, ShownPlace, ShownStop};
pub use shown_text::ShownText;
pub use texts::{bind_text, value_text};
