//! What a user of `mysql_connection` can name: each item that it passes on, by each of its paths.
//! Written by `tools/faces` from the sources. A name that the crate doesn't pass on is refused here.

use mysql_connection::{
    ASK_SESSION_MODE, Attribute, AuthenticationEvent, BadEvent, BoundType, BulkExecution,
    BulkValue, Capabilities, CapabilityFlags, Command, CommandRefusal, Connection, ConnectionFault,
    Context, End, Event, EventReader, Execution, ExtendedColumn, Fault, FeedRefusal, Form,
    GreetingEvent, LentEvent, Limits, ListedColumn, LoginFault, LoginRefusal, LoginResponse,
    MariadbCapabilities, PacketsRefusal, ParameterType, PayloadRefusal, Phase, PutRefusal, Reason,
    RecodingRefusal, Refused, Reply, ReplyEvent, ReplyFault, ReplyKind, ReplyPutRefusal,
    ResponseEvent, Secrets, SessionMode, SetsRefusal, Side, Statement, StatementIds,
    StatementParameters, Statements, Texts, Turn, UnclearCells, UnclearValues,
    capabilities_in_force, put_authentication, put_command, put_event, put_greeting, put_response,
    read_authentication, read_bulk_types, read_execution_types, read_greeting, read_response,
    write_authentication_event, write_command, write_end, write_event, write_event_as,
    write_greeting_event, write_lent_row, write_lent_row_as, write_reply_event,
    write_response_event, write_row_ref,
};

mod laws {
    use mysql_connection::laws::{
        all_see_the_same, clients_go_on, connection_executions_are_received, counts_are_checked,
        events_lead_on, executions_are_shown, kept_lists_are_counted, packets_are_commands,
        packets_are_spoken, payloads_are_in_turn, put_packets_are_about, put_values_are_counted,
        queries_are_shown, read_commands_are_put, read_events_are_put, sent_packets_are_put,
        sent_sets_are_of_their_statement, stored_is_the_sum, texts_are_shown,
    };

    mod agreement {
        use mysql_connection::laws::agreement::{
            numbers_are_bytes, ping_is_put, puts_are_read, puts_are_the_run, puts_or_refusals,
            three_agree,
        };
    }

    mod contents {
        use mysql_connection::laws::contents::{
            prepared_statements_agree, received_commands_are_read, received_executions_are_read,
        };
    }

    mod deliveries {
        use mysql_connection::laws::deliveries::{
            delivered_sets_are_said, events_are_spoken, further_sets_join, machines_hear,
            machines_hear_what_they_put, put_payloads_are_read, put_sets_are_read,
            put_values_are_executed,
        };
    }

    mod executions {
        use mysql_connection::laws::executions::{
            attributes_read_back, bulks_read_back, executions_read_back,
            read_attributes_are_written, read_bulks_are_written, read_executions_are_written,
        };
    }

    mod first_packets {
        use mysql_connection::laws::first_packets::{
            framings_are_found, packets_stay, packets_take_bytes, rests_follow, room_is_enough,
        };
    }

    mod logins {
        use mysql_connection::laws::logins::{
            authentications_are_put, authentications_read_again, authentications_read_back,
            greetings_are_put, greetings_read_again, greetings_read_back,
            refused_authentications_read_otherwise, refused_greetings_read_otherwise,
            refused_responses_read_otherwise, responses_are_put, responses_read_again,
            responses_read_back,
        };
    }

    mod recoding {
        use mysql_connection::laws::recoding::{recoded_commands_say_the_same, types_count_there};
    }

    mod runs {
        use mysql_connection::laws::runs::{
            end_adds_last_words, events_are_in_turn, events_take_bytes, faults_are_of_their_bytes,
            fronts_read_on, held_stays, last_words_are_last, pieces_are_the_run, positions_stay,
            run_exists, run_is_one, servers_end_changes_nothing, turn_can_come,
        };
    }
}
