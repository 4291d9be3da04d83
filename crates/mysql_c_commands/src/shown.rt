//! What C sees of contents and of the end of a stream.

ghost use Rattle.std.specs.Prelude.{◌≡◌};
ghost use Rattle.mysql_c_handles.specs.Codes.{code_number};
ghost use Rattle.mysql_c_commands.specs.Shown.{Shows, ShowsNumber, end_kind, end_shown};

use mysql_c_handles::{Code, ShownEnd, number_of_fault, start_of};
use mysql_receive::{Content, End};

/// A content: its kind, and what that kind has.
///
/// The kinds are 0 NULL, 1 a number with a sign, 2 one without, 3 bytes.
#[repr(C)]
#[derive(Clone, Copy)]
pub struct ShownContent {
    pub kind: u32,
    pub int: i64,
    pub uint: u64,
    pub bytes: *const u8,
    pub len: usize,
}

/// Which set is refused, and which place of it, both from 0.
#[repr(C)]
#[derive(Clone, Copy)]
pub struct ShownPlace {
    pub set: usize,
    pub place: usize,
}

/// Where recoding stopped: how the stream ends, by its kind, the payload and its fault, and the set.
#[repr(C)]
#[derive(Clone, Copy)]
pub struct ShownStop {
    pub end: u32,
    pub fault: u32,
    pub payload: u64,
    pub set: usize,
}

/// Shows a number. One that no content has, of more than 64 bits, is out of range.
fn show_number(number: i128, shown: &mut ShownContent) -> Code
    ensures { ShowsNumber number (code_number result) shown.new }
{
    if let Ok(int) = i64::try_from(number) {
        shown.kind = 1;
        shown.int = int;
        return Code::Done;
    }
    if let Ok(uint) = u64::try_from(number) {
        shown.kind = 2;
        shown.uint = uint;
        return Code::Done;
    }
    Code::OutOfRange
}

/// Shows a content. Bytes stay where they are.
pub fn show(content: &Content, shown: &mut ShownContent) -> Code
    ensures { Shows content.now (code_number result) shown.new }
{
    match content {
        Content::Null => {
            shown.kind = 0;
            Code::Done
        }
        Content::Number(number) => show_number(*number, shown),
        Content::Bytes(bytes) => {
            let bytes = bytes.as_slice();
            shown.kind = 3;
            shown.bytes = start_of(bytes);
            shown.len = bytes.len();
            Code::Done
        }
    }
}

/// The number of a way to end.
pub fn kind_of_end(end: End) -> u32
    ensures { result ≡ end_kind end }
{
    match end {
        End::Whole => 0,
        End::UnfinishedPacket => 1,
        End::WaitingPieces => 2,
        End::Fault(_, _) => 3,
    }
}

/// What C sees of an end.
pub fn shown_end(end: End) -> ShownEnd
    ensures { result ≡ end_shown end }
{
    match end {
        End::Fault(payload, fault) => ShownEnd {
            kind: 3,
            fault: number_of_fault(fault),
            payload,
        },
        other => ShownEnd {
            kind: kind_of_end(other),
            fault: 0,
            payload: 0,
        },
    }
}
