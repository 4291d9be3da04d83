//! What the program prints of itself.

/// The program's name and its version, in a line.
pub(crate) const VERSION: &str = "mysql_session_program 0.1.0\n";

/// The words that the program knows, in fourteen lines.
pub(crate) const HELP: &str =
    "Parameter sets of one query as a stream of MySQL's commands, and back.
    mysql_session_program                              SELECT :a with a = 1, sent and audited
    mysql_session_program encode ROAD ID LIMIT QUERY   sets in JSON in, a stream out
    mysql_session_program audit ID LIMIT QUERY         a stream in, a line for each set out
    mysql_session_program follow ID LIMIT QUERY        the same lines, as the stream comes
    mysql_session_program recode ID LIMIT QUERY        a stream in, executions of its sets out
    mysql_session_program connection LIMIT             a connection's transcript in, events out
    mysql_session_program help                         these lines
ROAD is text, execute or bulk, ID the statement's id, LIMIT the most bytes of a packet, from 4.
QUERY has question marks, or names as :a; sets are [[1, \"x\"], ..], or [{\"a\": 1}, ..] for :a.
Before ROAD or ID: --mode no-backslash-escapes,ansi-quotes (the server's, one or both), and
--hex (byte strings of texts in hexadecimal, the same in each mode).
Before LIMIT of connection: --secrets (data of logins in full), --text or --hex (for texts).
Status: 0 done, 1 refused or a stream that isn't whole, 2 unknown words or input.
";
