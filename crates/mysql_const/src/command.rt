//! Commands: what a client asks for, by the first byte of its packet.
//!
//!     let command = Command::try_from(number)?;
//!     let is_query = command == Command::COM_QUERY;
//!     let number = u8::from(Command::COM_PING);

ghost use Rattle.std.specs.Prelude.{◌≡◌};
ghost use Rattle.mysql_const.specs.Tables.{ReadsAs};
ghost use Rattle.mysql_const.specs.Commands.{command_number, command_named};

use crate::unknown::write_unknown_number;
use std::error::Error;
use std::fmt;
use std::fmt::{Display, Formatter, Write};

/// What a client asks for: the first byte of its packet.
///
/// MySQL: Client/Server Protocol, "Command Phase" (enum_server_command); MariaDB: Client/Server Protocol,
/// "COM_STMT_BULK_EXECUTE".
#[allow(non_camel_case_types)]
#[derive(Clone, Copy, PartialEq, Eq, Hash, Debug)]
pub enum Command {
    COM_SLEEP = 0,
    COM_QUIT = 1,
    COM_INIT_DB = 2,
    COM_QUERY = 3,
    COM_FIELD_LIST = 4,
    COM_CREATE_DB = 5,
    COM_DROP_DB = 6,
    COM_REFRESH = 7,
    COM_DEPRECATED_1 = 8,
    COM_STATISTICS = 9,
    COM_PROCESS_INFO = 10,
    COM_CONNECT = 11,
    COM_PROCESS_KILL = 12,
    COM_DEBUG = 13,
    COM_PING = 14,
    COM_TIME = 15,
    COM_DELAYED_INSERT = 16,
    COM_CHANGE_USER = 17,
    COM_BINLOG_DUMP = 18,
    COM_TABLE_DUMP = 19,
    COM_CONNECT_OUT = 20,
    COM_REGISTER_SLAVE = 21,
    COM_STMT_PREPARE = 22,
    COM_STMT_EXECUTE = 23,
    COM_STMT_SEND_LONG_DATA = 24,
    COM_STMT_CLOSE = 25,
    COM_STMT_RESET = 26,
    COM_SET_OPTION = 27,
    COM_STMT_FETCH = 28,
    COM_DAEMON = 29,
    COM_BINLOG_DUMP_GTID = 30,
    COM_RESET_CONNECTION = 31,
    COM_END = 32,
    COM_STMT_BULK_EXECUTE = 0xfa,
}

/// A number that no [`Command`] has.
#[derive(Clone, Copy, PartialEq, Eq, Debug)]
pub struct UnknownCommand(pub u8);

impl Error for UnknownCommand {}

impl Display for UnknownCommand {
    fn fmt<W: Write>(&self, f: &mut Formatter<W>) -> fmt::Result {
        write_unknown_number(f, "command", i32::from(self.0))
    }
}

/// The number of a [`Command`].
impl From<Command> for u8 {
    ghost from_gives = { λ command number. number ≡ command_number command };

    fn from(command: Command) -> u8 {
        command as u8
    }
}

/// The [`Command`] of a number. A number without a name is refused, and the refusal carries it.
impl TryFrom<u8> for Command {
    type Error = UnknownCommand;

    ghost try_from_gives = { λ number answer. ReadsAs (command_named number) (λ unknown. unknown.0) number answer };

    fn try_from(number: u8) -> Result<Command, UnknownCommand> {
        match number {
            0 => Ok(Command::COM_SLEEP),
            1 => Ok(Command::COM_QUIT),
            2 => Ok(Command::COM_INIT_DB),
            3 => Ok(Command::COM_QUERY),
            4 => Ok(Command::COM_FIELD_LIST),
            5 => Ok(Command::COM_CREATE_DB),
            6 => Ok(Command::COM_DROP_DB),
            7 => Ok(Command::COM_REFRESH),
            8 => Ok(Command::COM_DEPRECATED_1),
            9 => Ok(Command::COM_STATISTICS),
            10 => Ok(Command::COM_PROCESS_INFO),
            11 => Ok(Command::COM_CONNECT),
            12 => Ok(Command::COM_PROCESS_KILL),
            13 => Ok(Command::COM_DEBUG),
            14 => Ok(Command::COM_PING),
            15 => Ok(Command::COM_TIME),
            16 => Ok(Command::COM_DELAYED_INSERT),
            17 => Ok(Command::COM_CHANGE_USER),
            18 => Ok(Command::COM_BINLOG_DUMP),
            19 => Ok(Command::COM_TABLE_DUMP),
            20 => Ok(Command::COM_CONNECT_OUT),
            21 => Ok(Command::COM_REGISTER_SLAVE),
            22 => Ok(Command::COM_STMT_PREPARE),
            23 => Ok(Command::COM_STMT_EXECUTE),
            24 => Ok(Command::COM_STMT_SEND_LONG_DATA),
            25 => Ok(Command::COM_STMT_CLOSE),
            26 => Ok(Command::COM_STMT_RESET),
            27 => Ok(Command::COM_SET_OPTION),
            28 => Ok(Command::COM_STMT_FETCH),
            29 => Ok(Command::COM_DAEMON),
            30 => Ok(Command::COM_BINLOG_DUMP_GTID),
            31 => Ok(Command::COM_RESET_CONNECTION),
            32 => Ok(Command::COM_END),
            0xfa => Ok(Command::COM_STMT_BULK_EXECUTE),
            _ => Err(UnknownCommand(number)),
        }
    }
}
