//! What is awaited of a reply.

ghost use Rattle.std.specs.Prelude.{◌≡◌, true};
ghost use Rattle.mysql_reply_events.specs.Due.{bare};
ghost use Rattle.mysql_reply_events.specs.Events.Awaited.{Rows};
ghost use Rattle.mysql_reply_events.specs.Views.{awaited_view, due_view, turn_of};

use mysql_columns::Column;
use std::alloc::Global;

/// Whose payload is due.
///
/// MySQL: Client/Server Protocol, "LOCAL INFILE Request".
#[derive(Clone, Copy, Debug, PartialEq, Eq)]
pub enum Turn {
    /// The server's: the reply goes on.
    Server,
    /// The client's: bytes of the file that it was asked for, to an empty payload.
    Client,
    /// Nobody's: the reply is whole.
    Nobody,
}

/// What columns belong to.
#[derive(Clone, Copy, Debug, PartialEq, Eq)]
pub enum ColumnGroup {
    /// A result set: its rows follow.
    ResultSet,
    /// The parameters of a prepared statement: so many columns of it come next.
    Parameters { columns: u16, follow: bool },
    /// The columns of a prepared statement, which end the reply.
    Statement,
}

/// What is read next, without the columns that came before.
///
/// MySQL: Client/Server Protocol, "COM_QUERY Response" and "COM_STMT_PREPARE Response".
#[derive(Clone, Copy, Debug, PartialEq, Eq)]
pub enum Due {
    /// The first payload of a reply, or of a further result.
    First,
    /// A column of this group, and so many behind it.
    Column { group: ColumnGroup, left: u16 },
    /// The EOF behind columns; whether rows behind it are read by the columns that stand.
    ColumnsEnd { group: ColumnGroup, known: bool },
    /// A row or what ends rows; whether rows are read by the columns that stand.
    Rows { known: bool },
    /// A column of a table, or what ends them.
    Fields,
    /// Bytes of the client's file.
    FileData,
    /// Nothing: the reply is whole.
    Nothing,
}

/// What is read next.
#[derive(Drop)]
pub enum Awaited {
    /// The first payload of a reply, or of a further result.
    First,
    /// A column of this group, and so many behind it; the columns before it, but for parameters.
    Columns {
        group: ColumnGroup,
        left: u16,
        columns: Vec<Column>,
    },
    /// The EOF behind columns; whether rows behind it are read by the columns that stand.
    ColumnsEnd {
        group: ColumnGroup,
        known: bool,
    },
    /// A row or what ends rows; whether rows are read by the columns that stand.
    Rows {
        known: bool,
    },
    /// A column of a table, or what ends them.
    Fields,
    /// Bytes of the client's file.
    FileData,
    /// Nothing: the reply is whole.
    Nothing,
}

impl Awaited {
    /// What is awaited, without the columns that came before.
    pub fn due(&self) -> Due
        ensures { due_view result ≡ bare (awaited_view self.now) }
    {
        match self {
            Awaited::First => Due::First,
            Awaited::Columns {
                group,
                left,
                columns: _,
            } => Due::Column {
                group: *group,
                left: *left,
            },
            Awaited::ColumnsEnd { group, known } => Due::ColumnsEnd {
                group: *group,
                known: *known,
            },
            Awaited::Rows { known } => Due::Rows { known: *known },
            Awaited::Fields => Due::Fields,
            Awaited::FileData => Due::FileData,
            Awaited::Nothing => Due::Nothing,
        }
    }

    /// Whose payload is due.
    pub fn turn(&self) -> Turn
        ensures { result ≡ turn_of (awaited_view self.now) }
    {
        match self {
            Awaited::FileData => Turn::Client,
            Awaited::Nothing => Turn::Nobody,
            _ => Turn::Server,
        }
    }

    /// A row came that was due: rows by the columns that stand are due behind it.
    ///
    /// Where they were awaited before, as behind most rows, nothing is written.
    #[inline(always)]
    pub fn pass_row(&mut self)
        ensures { awaited_view self.new ≡ Rows true }
    {
        match self {
            Awaited::Rows { known: true } => {}
            _ => *self = Awaited::Rows { known: true },
        }
    }

    /// This is awaited, and no columns came before.
    pub fn of(alloc: Global, due: Due) -> Awaited
        ensures { awaited_view result ≡ due_view due }
    {
        match due {
            Due::First => Awaited::First,
            Due::Column { group, left } => Awaited::Columns {
                group,
                left,
                columns: Vec::new(alloc),
            },
            Due::ColumnsEnd { group, known } => Awaited::ColumnsEnd { group, known },
            Due::Rows { known } => Awaited::Rows { known },
            Due::Fields => Awaited::Fields,
            Due::FileData => Awaited::FileData,
            Due::Nothing => Awaited::Nothing,
        }
    }
}
