//! Theorems of what is read and put, over the definitions alone: those of the crates below.

pub use mysql_authentication::laws as logins;
pub use mysql_command_writer::laws::{put_values_are_counted, read_commands_are_put};
pub use mysql_connection_contents::delivery_laws as deliveries;
pub use mysql_connection_contents::laws::{
    connection_executions_are_received, executions_are_shown, queries_are_shown, texts_are_shown,
};
pub use mysql_connection_contents::packet_laws::{
    clients_go_on, counts_are_checked, packets_are_commands, packets_are_spoken,
    put_packets_are_about, sent_sets_are_of_their_statement,
};
pub use mysql_connection_contents::promise_laws::all_see_the_same;
pub use mysql_connection_machine::laws::sent_packets_are_put;
pub use mysql_connection_recoding::{content_laws as contents, laws as recoding};
pub use mysql_connection_rules::{agreement_laws as agreement, laws as runs};
pub use mysql_connection_state::laws::payloads_are_in_turn;
pub use mysql_connection_statements::laws::{kept_lists_are_counted, stored_is_the_sum};
pub use mysql_execution_writer::laws as executions;
pub use mysql_reply_event_writer::laws::read_events_are_put;
pub use mysql_reply_events::laws::events_lead_on;
pub use mysql_wire::first_packet_laws as first_packets;
