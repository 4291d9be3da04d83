//! Laws of the tables.

ghost use Rattle.std.specs.Prelude.{◌≡◌};
ghost use Rattle.mysql_const.specs.Tables.{IsTable};
ghost use Rattle.bitflags.specs.Sets.{known_bits};
ghost use Rattle.mysql_const.specs.Commands.{command_number, command_named};
ghost use Rattle.mysql_const.specs.ColumnTypes.{column_type_number, column_type_named};
ghost use Rattle.mysql_const.specs.BulkIndicators.{bulk_indicator_number, bulk_indicator_named};
ghost use Rattle.mysql_const.specs.SessionStates.{session_state_number, session_state_named};
ghost use Rattle.mysql_const.specs.Geometries.{geometry_number, geometry_named};
ghost use Rattle.mysql_const.specs.ItemResults.{item_result_number, item_result_named};
ghost use Rattle.mysql_const.specs.BinlogDumpFlags.{binlog_dump_flags};
ghost use Rattle.mysql_const.specs.BulkFlags.{bulk_execute_flags};
ghost use Rattle.mysql_const.specs.CapabilityFlags.{capability_flags};
ghost use Rattle.mysql_const.specs.ColumnFlags.{column_flags};
ghost use Rattle.mysql_const.specs.CursorTypes.{cursor_types};
ghost use Rattle.mysql_const.specs.ExecuteFlags.{execute_params_flags, execute_param_flags};
ghost use Rattle.mysql_const.specs.MariadbCapabilities.{mariadb_capabilities};
ghost use Rattle.mysql_const.specs.StatusFlags.{mariadb_status_flags, status_flags};
ghost use Rattle.mysql_const.specs.declared.TheConstants.{MAX_PAYLOAD_LEN, DEFAULT_MAX_ALLOWED_PACKET, UTF8_GENERAL_CI};
ghost use Rattle.mysql_const.specs.declared.TheConstants.{UTF8MB4_GENERAL_CI};

/// Every name's number is read as this name, and no other number is.
pub fn names_are_read_back()
    ensures commands { IsTable command_number command_named }
    ensures column_types { IsTable column_type_number column_type_named }
    ensures bulk_indicators { IsTable bulk_indicator_number bulk_indicator_named }
    ensures session_states { IsTable session_state_number session_state_named }
    ensures geometries { IsTable geometry_number geometry_named }
    ensures item_results { IsTable item_result_number item_result_named }
{}

/// The bits that have a name, in each set of flags. A number with another bit is refused.
#[tactic(auto, unfolding(bitflags::proofs::OnLiterals::bitflags_on_literals))]
pub fn bits_with_names()
    ensures status_flags { known_bits status_flags ≡ 0x7ffb }
    ensures mariadb_status_flags { known_bits mariadb_status_flags ≡ 0x8000 }
    ensures capability_flags { known_bits capability_flags ≡ 0xffffffff }
    ensures mariadb_capabilities { known_bits mariadb_capabilities ≡ 0x3f }
    ensures column_flags { known_bits column_flags ≡ 0xffff }
    ensures cursor_types { known_bits cursor_types ≡ 7 }
    ensures execute_params_flags { known_bits execute_params_flags ≡ 1 }
    ensures execute_param_flags { known_bits execute_param_flags ≡ 0x80 }
    ensures bulk_execute_flags { known_bits bulk_execute_flags ≡ 0xc0 }
    ensures binlog_dump_flags { known_bits binlog_dump_flags ≡ 7 }
{}

/// The sizes and the numbers of the two collations.
pub fn sizes_and_collations()
    ensures payload { MAX_PAYLOAD_LEN ≡ 16777215 }
    ensures packet { DEFAULT_MAX_ALLOWED_PACKET ≡ 4194304 }
    ensures utf8 { UTF8_GENERAL_CI ≡ 33 }
    ensures utf8mb4 { UTF8MB4_GENERAL_CI ≡ 45 }
{}
