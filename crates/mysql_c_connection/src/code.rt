//! What a call about a connection answers.

ghost use Rattle.std.specs.Prelude.{◌≡◌};
ghost use Rattle.mysql_c_connection.specs.Codes.{code_number, fault_number, reason_number};
ghost use Rattle.mysql_c_connection.specs.Codes.{reply_fault_number, side_number, side_numbered};

use mysql_connection_rules::{Fault, Reason, Side};
use mysql_reply_events::ReplyFault;

/// What a call about a connection answers: that it is done, or why it isn't.
#[derive(Clone, Copy)]
pub enum ConnectionCode {
    /// Done.
    Done,
    /// A growth of memory was refused.
    Memory,
    /// The handle refers to nothing.
    EmptyHandle,
    /// The handle refers to an object of another kind.
    OtherKind,
    /// There is no event, value, attribute, column or statement of this number.
    OutOfRange,
    /// There is no side of this number.
    NoSuchSide,
    /// The side's stream has ended.
    Closed,
    /// More of the side would wait unread than its longest payload takes.
    Held,
    /// It isn't the turn of this side's payload.
    NotDue,
    /// The statement whose sets are put isn't known.
    UnknownStatement,
    /// The server counted another number of parameters than the query has placeholders.
    WrongCount,
    /// The connection can't be read further, for this; or a payload isn't put.
    Fault(Fault),
}

impl ConnectionCode {
    /// The number that C sees.
    pub fn number(self) -> u32
        ensures { result ≡ code_number self }
    {
        match self {
            ConnectionCode::Done => 0,
            ConnectionCode::Memory => 1,
            ConnectionCode::EmptyHandle => 2,
            ConnectionCode::OtherKind => 3,
            ConnectionCode::OutOfRange => 4,
            ConnectionCode::NoSuchSide => 8,
            ConnectionCode::Closed => 500,
            ConnectionCode::Held => 501,
            ConnectionCode::NotDue => 520,
            ConnectionCode::UnknownStatement => 521,
            ConnectionCode::WrongCount => 522,
            ConnectionCode::Fault(fault) => number_of_fault(fault),
        }
    }
}

/// The number of why a payload fits no reply there: that of a reply by itself.
fn number_of_reply_fault(fault: ReplyFault) -> u32
    ensures { result ≡ reply_fault_number fault }
{
    match fault {
        ReplyFault::BadHeader => 302,
        ReplyFault::BadCount => 303,
        ReplyFault::BadColumn => 304,
        ReplyFault::BadOk => 305,
        ReplyFault::BadError => 306,
        ReplyFault::BadRow => 307,
        ReplyFault::BadTerminator => 308,
        ReplyFault::BadPrepare => 309,
        ReplyFault::NotDue => 519,
        ReplyFault::Memory => 1,
    }
}

/// The number of a fault.
pub(crate) fn number_of_fault(fault: Fault) -> u32
    ensures { result ≡ fault_number fault }
{
    match fault {
        Fault::TooLarge => 510,
        Fault::OutOfSync(_) => 511,
        Fault::OldProtocol => 512,
        Fault::BadGreeting => 513,
        Fault::BadLogin => 514,
        Fault::BadSwitch => 515,
        Fault::Unasked => 516,
        Fault::Held => 517,
        Fault::AfterQuit => 518,
        Fault::BadReply(fault) => number_of_reply_fault(fault),
        Fault::Memory => 1,
    }
}

/// The number of a side.
pub(crate) fn number_of_side(side: Side) -> u32
    ensures { result ≡ side_number side }
{
    match side {
        Side::Client => 0,
        Side::Server => 1,
    }
}

/// The side of a number.
pub(crate) fn side_of(number: u32) -> Option<Side>
    ensures { result ≡ side_numbered number }
{
    match number {
        0 => Some(Side::Client),
        1 => Some(Side::Server),
        _ => None,
    }
}

/// The number of why a connection is over.
pub(crate) fn number_of_reason(reason: Reason) -> u32
    ensures { result ≡ reason_number reason }
{
    match reason {
        Reason::Rejected => 0,
        Reason::Secure => 1,
        Reason::Denied => 2,
        Reason::Compressed => 3,
        Reason::Quit => 4,
        Reason::Dump => 5,
        Reason::Clone => 6,
        Reason::Farewell => 7,
    }
}
