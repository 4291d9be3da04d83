//! What a call answers.

ghost use Rattle.std.specs.Prelude.{◌≡◌};
ghost use Rattle.mysql_c_handles.specs.Codes.{code_number, fault_number, refusal_number, reply_fault_number};

use mysql_receive::StreamFault;
use mysql_replies::ReplyFault;
use mysql_reply_writer::ReplyRefusal;

/// What a call answers: that it is done, or why it isn't.
#[derive(Clone, Copy)]
pub enum Code {
    /// Done.
    Done,
    /// A growth of memory was refused.
    Memory,
    /// The handle refers to nothing.
    EmptyHandle,
    /// The handle refers to an object of another kind.
    OtherKind,
    /// There is no set, placeholder or column of this number.
    OutOfRange,
    /// The limit is below 4.
    LimitTooSmall,
    /// The query has both names and question marks.
    Mixed,
    /// There is no method of this number.
    NoSuchRoad,
    /// There is no kind of this number: of a command, of a value, of a column.
    NoSuchKind,
    /// Bytes of a packet are cut off, or have no such layout.
    BadPacket,
    /// The stream isn't whole where it ends.
    Unfinished,
    /// No mode has these flags.
    NoSuchMode,
    /// By text: a placeholder has no blanks around it.
    NotAlone,
    /// By execute and bulk: the query has more than 65535 placeholders.
    TooManyPlaces,
    /// By execute and bulk: the prepare is longer than a payload within the limit.
    PrepareTooLarge,
    /// By bulk: the query has no placeholders.
    NoPlaces,
    /// A set gives the query no values.
    Params,
    /// The values of a set are not as many as the placeholders.
    WrongCount,
    /// A value is a float.
    Float,
    /// The command of a set is longer than a payload within the limit.
    PacketTooLarge,
    /// By bulk: a value is of another kind than the earlier ones of its column.
    MixedKinds,
    /// By bulk: no request with its own types holds the values of a set.
    RowTooLarge,
    /// The stream has this fault.
    Stream(StreamFault),
    /// The reply has this fault.
    Reply(ReplyFault),
    /// A reply isn't written, for this.
    Unwritten(ReplyRefusal),
}

impl Code {
    /// The number that C sees.
    #[inline(always)]
    pub fn number(self) -> u32
        ensures { result ≡ code_number self }
    {
        match self {
            Code::Done => 0,
            Code::Memory => 1,
            Code::EmptyHandle => 2,
            Code::OtherKind => 3,
            Code::OutOfRange => 4,
            Code::LimitTooSmall => 5,
            Code::Mixed => 6,
            Code::NoSuchRoad => 7,
            Code::NoSuchKind => 8,
            Code::BadPacket => 9,
            Code::Unfinished => 10,
            Code::NoSuchMode => 11,
            Code::NotAlone => 200,
            Code::TooManyPlaces => 201,
            Code::PrepareTooLarge => 202,
            Code::NoPlaces => 203,
            Code::Params => 204,
            Code::WrongCount => 205,
            Code::Float => 206,
            Code::PacketTooLarge => 207,
            Code::MixedKinds => 208,
            Code::RowTooLarge => 209,
            Code::Stream(fault) => number_of_fault(fault),
            Code::Reply(fault) => number_of_reply_fault(fault),
            Code::Unwritten(why) => number_of_refusal(why),
        }
    }
}

/// The number of a fault.
pub fn number_of_fault(fault: StreamFault) -> u32
    ensures { result ≡ fault_number fault }
{
    match fault {
        StreamFault::TooLarge => 100,
        StreamFault::OutOfSync => 101,
        StreamFault::EmptyCommand => 102,
        StreamFault::OtherCommand => 103,
        StreamFault::TextMismatch => 104,
        StreamFault::NotAlone => 105,
        StreamFault::PrepareMismatch => 106,
        StreamFault::TooManyPlaces => 107,
        StreamFault::NotPrepared => 108,
        StreamFault::WrongId => 109,
        StreamFault::BadExecute => 110,
        StreamFault::NoTypes => 111,
        StreamFault::BadType => 112,
        StreamFault::Float => 113,
        StreamFault::BadPlace => 114,
        StreamFault::BadBulk => 115,
        StreamFault::Indicator => 116,
        StreamFault::NoRows => 117,
        StreamFault::PiecesBeforeBulk => 118,
        StreamFault::Memory => 1,
    }
}

/// The number of a fault of a reply.
pub fn number_of_reply_fault(fault: ReplyFault) -> u32
    ensures { result ≡ reply_fault_number fault }
{
    match fault {
        ReplyFault::TooLarge => 300,
        ReplyFault::OutOfSync => 301,
        ReplyFault::BadHeader => 302,
        ReplyFault::BadCount => 303,
        ReplyFault::BadColumn => 304,
        ReplyFault::BadOk => 305,
        ReplyFault::BadError => 306,
        ReplyFault::BadRow => 307,
        ReplyFault::BadTerminator => 308,
        ReplyFault::BadPrepare => 309,
        ReplyFault::AfterEnd => 310,
        ReplyFault::Memory => 1,
    }
}

/// The number of a refusal to write a reply.
pub fn number_of_refusal(why: ReplyRefusal) -> u32
    ensures { result ≡ refusal_number why }
{
    match why {
        ReplyRefusal::NoResults => 400,
        ReplyRefusal::AfterEnd(_) => 401,
        ReplyRefusal::NotEnded(_) => 402,
        ReplyRefusal::NotBegun(_) => 403,
        ReplyRefusal::WrongKind(_) => 404,
        ReplyRefusal::NoColumns(_) => 405,
        ReplyRefusal::TooManyColumns(_) => 406,
        ReplyRefusal::Status(_) => 407,
        ReplyRefusal::ReadsAsReport(_) => 408,
        ReplyRefusal::CellCount { result: _, row: _ } => 409,
        ReplyRefusal::NoForm {
            result: _,
            row: _,
            place: _,
        } => 410,
        ReplyRefusal::PacketTooLarge(_) => 411,
        ReplyRefusal::Memory => 1,
    }
}
