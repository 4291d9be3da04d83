//! Laws of commands that are recoded. Each function has an empty body: its contract is the law.

ghost use Rattle.mysql_connection_recoding.specs.Laws.{RecodedCommandsSayTheSame, TypesCountThere};

/// What an execution says on the other connection is what it says here: the same contents.
///
/// So where it is put there, whoever reads that connection reads the same sets.
///
/// MySQL: Client/Server Protocol, "COM_STMT_EXECUTE"; MariaDB: "COM_STMT_BULK_EXECUTE".
pub fn recoded_commands_say_the_same()
    ensures { RecodedCommandsSayTheSame }
{}

/// The types that count there are those that count here, also where others are in force there.
///
/// So it is of each statement that has parameters.
///
/// MySQL: Client/Server Protocol, "COM_STMT_EXECUTE" (new_params_bind_flag).
pub fn types_count_there()
    ensures { TypesCountThere }
{}
