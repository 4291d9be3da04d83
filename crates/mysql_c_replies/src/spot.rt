//! Where writing is refused.

ghost use Rattle.std.specs.Prelude.{◌≡◌};
ghost use Rattle.mysql_c_handles.specs.declared.code.Code.TheVariants as code;
ghost use Rattle.mysql_c_replies.specs.Spots.{spot_at, spot_of};

use mysql_c_handles::Code;
use mysql_reply_writer::ReplyRefusal;

/// The result, the row and the cell that are refused, or the number of the payload, all from 0.
#[repr(C)]
#[derive(Clone, Copy)]
pub struct ShownSpot {
    pub result: usize,
    pub row: usize,
    pub place: usize,
    pub payload: u64,
}

/// The spot of these numbers.
fn spot(number: usize, row: usize, place: usize, payload: u64) -> ShownSpot
    ensures { result ≡ spot_at number row place payload }
{
    ShownSpot {
        result: number,
        row,
        place,
        payload,
    }
}

/// The spot of a refusal.
fn spot_of(refusal: ReplyRefusal) -> ShownSpot
    ensures { result ≡ spot_of refusal }
{
    match refusal {
        ReplyRefusal::AfterEnd(result)
        | ReplyRefusal::NotEnded(result)
        | ReplyRefusal::NotBegun(result)
        | ReplyRefusal::WrongKind(result)
        | ReplyRefusal::NoColumns(result)
        | ReplyRefusal::TooManyColumns(result)
        | ReplyRefusal::Status(result)
        | ReplyRefusal::ReadsAsReport(result) => spot(result, 0, 0, 0),
        ReplyRefusal::CellCount { result, row } => spot(result, row, 0, 0),
        ReplyRefusal::NoForm { result, row, place } => spot(result, row, place, 0),
        ReplyRefusal::PacketTooLarge(payload) => spot(0, 0, 0, payload),
        ReplyRefusal::NoResults | ReplyRefusal::Memory => spot(0, 0, 0, 0),
    }
}

/// The code of a refusal, which shows where it is.
pub(crate) fn show_refusal(refusal: ReplyRefusal, shown: &mut ShownSpot) -> Code
    ensures code { result ≡ code.Unwritten refusal }
    ensures spot { shown.new ≡ spot_of refusal }
{
    *shown = spot_of(refusal);
    Code::Unwritten(refusal)
}
