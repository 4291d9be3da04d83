//! Progress reports: how far a long command has come, as MariaDB tells it.
//!
//!     let report = ProgressReport::new(1, 2, 50000, CowSlice::Borrowed(b"copying"));

ghost use Rattle.std.specs.Prelude.{◌≡◌, IfOk, IsOkUnless, None, Some};
ghost use Rattle.std.specs.Cow.{cow_slice_items, cow_str_bytes};
ghost use Rattle.mysql_fields.specs.Laws.{unsized};
ghost use Rattle.mysql_fields.specs.Wire.{TellsPart};
ghost use Rattle.mysql_fields.specs.declared.error.WireError.TheVariants as wire;
ghost use Rattle.mysql_server_packets.specs.PacketLaws.{progress_body_at-back};
ghost use Rattle.mysql_server_packets.specs.Packets.{IsProgressReport, ProgressReport as ProgressReportFields};
ghost use Rattle.mysql_server_packets.specs.Packets.{numbers_in};
ghost use Rattle.mysql_server_packets.specs.Packets.{progress_body, progress_body_at, stage_progress};
ghost use Rattle.mysql_server_packets.specs.Packets.{stage_progress_at};
ghost use Rattle.mysql_fields.specs.Texts.{lossy_text};
ghost use Rattle.mysql_server_packets.specs.Texts.{progress_report_text, share_text};
ghost use Rattle.mysql_server_packets.specs.Views.{progress_report_view, stage_progress_view};

use bstr::BStr;
use mysql_buf::ParseBuf;
use mysql_fields::{
    LeU24, LenEnc, MyDeserialize, MySerialize, ParseExt, RawBytes, RawInt, Readable, ReadsBack,
    WireError, copy_bytes, in_order, lossy_text, own_bytes, read_lenenc_text,
};
use std::alloc::{AllocError, Global};
use std::borrow::{CowSlice, CowStr};
use std::fmt;

/// A progress report: how far a long command has come. Its own bytes begin behind the code of its packet.
///
/// Promise: its bytes are a function of its fields. Any bytes are read exactly as its layout says,
/// with the first refusal from the left. Its shown text has percents with two decimals, further
/// ones cut off (`progress_body`, `progress_body_at`).
///
/// MariaDB: Client/Server Protocol, "ERR_Packet", 'Progress report'.
#[derive(Debug, PartialEq, Eq, Drop)]
pub struct ProgressReport<'a> {
    stage: u8,
    max_stage: u8,
    progress: u32,
    stage_info: CowSlice<'a, u8>,
}

impl<'a> ProgressReport<'a> {
    /// A report of this stage of so many, with the stage's name.
    ///
    /// The progress is in thousandths of a percent, of which the low 24 bits are written.
    pub fn new(
        stage: u8,
        max_stage: u8,
        progress: u32,
        stage_info: CowSlice<'a, u8>,
    ) -> ProgressReport<'a>
        ensures { progress_report_view result ≡
            record {
              stage = stage;
              max_stage = max_stage;
              progress = progress;
              progress_info =
                  cow_slice_items stage_info.entry;
            } }
    {
        ProgressReport {
            stage,
            max_stage,
            progress,
            stage_info,
        }
    }

    /// The stage, from 1.
    pub fn stage(&self) -> u8
        ensures { result ≡ (progress_report_view self.now).stage }
    {
        self.stage
    }

    /// How many stages there are.
    pub fn max_stage(&self) -> u8
        ensures { result ≡ (progress_report_view self.now).max_stage }
    {
        self.max_stage
    }

    /// How far the stage is, in thousandths of a percent.
    pub fn progress(&self) -> u32
        ensures { result ≡ (progress_report_view self.now).progress }
    {
        self.progress
    }

    /// The stage's name, as bytes.
    pub fn stage_info_ref(&self) -> &[u8]
        ensures { result.now ≡ (progress_report_view self.now).progress_info }
    {
        self.stage_info.as_slice()
    }

    /// The stage's name, where bytes that aren't UTF-8 are replaced.
    ///
    /// # Errors
    /// - `Memory`.
    pub fn stage_info_str(&self, alloc: Global) -> Result<CowStr<'_>, WireError>
        ensures memory { IsOkUnless result wire.Memory }
        ensures value { IfOk result (λ text. cow_str_bytes text ≡
            lossy_text (progress_report_view self.now).progress_info) }
    {
        lossy_text(alloc, self.stage_info_ref())
    }

    /// The report in bytes of its own: it borrows nothing.
    ///
    /// # Errors
    /// - `AllocError` for want of memory.
    pub fn into_owned(self, alloc: Global) -> Result<ProgressReport<'static>, AllocError>
        ensures { IfOk result (λ owned. progress_report_view owned ≡ progress_report_view self.entry) }
    {
        Ok(ProgressReport {
            stage: self.stage,
            max_stage: self.max_stage,
            progress: self.progress,
            stage_info: own_bytes(alloc, self.stage_info)?,
        })
    }

    /// A copy, which borrows nothing.
    ///
    /// # Errors
    /// - `AllocError` for want of memory.
    pub fn clone(&self, alloc: Global) -> Result<ProgressReport<'static>, AllocError>
        ensures { IfOk result (λ copy. progress_report_view copy ≡ progress_report_view self.now) }
    {
        Ok(ProgressReport {
            stage: self.stage,
            max_stage: self.max_stage,
            progress: self.progress,
            stage_info: copy_bytes(alloc, self.stage_info.as_slice())?,
        })
    }

    // Its numbers.
    fn numbers(&self) -> StageProgress
        ensures { stage_progress_view result ≡ numbers_in (progress_report_view self.now) }
    {
        StageProgress {
            stage: self.stage,
            max_stage: self.max_stage,
            progress: self.progress,
        }
    }
}

// The numbers of a progress report.
#[derive(Clone, Copy)]
struct StageProgress {
    stage: u8,
    max_stage: u8,
    progress: u32,
}

#[tactic(auto, unfolding(crate::specs::Packets::stage_progress))]
impl MySerialize for StageProgress {
    ghost written = { λ p. stage_progress (stage_progress_view p) };

    fn serialize(&self, buf: &mut Vec<u8>) -> Result<(), AllocError> {
        let count: RawInt<u8> = RawInt::new(1);
        let stage: RawInt<u8> = RawInt::new(self.stage);
        let max_stage: RawInt<u8> = RawInt::new(self.max_stage);
        let progress: RawInt<LeU24> = RawInt::new(self.progress);
        in_order!(count, stage, max_stage, progress).serialize(buf)
    }
}

#[tactic(auto, unfolding(crate::specs::Packets::stage_progress_at))]
fn stage_progress(block: &mut ParseBuf) -> Result<StageProgress, WireError>
    ensures { TellsPart stage_progress_view block.new.0.now result (stage_progress_at block.old.0.now) }
{
    let _ = block.checked_eat_u8().ok_or(WireError::UnexpectedEof)?;
    let stage = block.checked_eat_u8().ok_or(WireError::UnexpectedEof)?;
    let max_stage = block.checked_eat_u8().ok_or(WireError::UnexpectedEof)?;
    let progress = block.checked_eat_u24_le().ok_or(WireError::UnexpectedEof)?;
    Ok(StageProgress {
        stage,
        max_stage,
        progress,
    })
}

/// A count of 1, the stage, how many there are, the progress in three bytes, and the name after its length.
#[tactic(auto, unfolding(crate::specs::Packets::progress_body))]
impl<'a> MySerialize for ProgressReport<'a> {
    ghost written = { λ p. progress_body (progress_report_view p) };

    fn serialize(&self, buf: &mut Vec<u8>) -> Result<(), AllocError> {
        let info: RawBytes<LenEnc> = RawBytes::new(CowSlice::Borrowed(self.stage_info_ref()));
        in_order!(self.numbers(), info).serialize(buf)
    }
}

impl<'a> Readable for ProgressReport<'a> {
    type Ctx = ();

    ghost Shown = { ProgressReportFields };

    ghost shown = { progress_report_view };

    ghost kept = { progress_report_view };

    ghost read_at = { λ _ bytes. progress_body_at bytes };

    ghost IsReadBack = { λ _ p _. IsProgressReport (progress_report_view p) };

    ghost sized = { λ _. unsized progress_body_at };

    fn size() -> Option<usize>
        ensures { result ≡ None }
    {
        None
    }
}

impl<'a> ReadsBack for ProgressReport<'a> {
    ghost reads_back = { λ _ p. progress_body_at-back (progress_report_view p) };
}

/// Reads a report, from its count on, which is passed over. Refused by UnexpectedEof where it is cut off.
///
/// MariaDB: Client/Server Protocol, "ERR_Packet", 'Progress report'.
#[tactic(auto, unfolding(crate::specs::Packets::progress_body_at))]
impl<'de> MyDeserialize<'de> for ProgressReport<'de> {
    // Progress report of an ERR_Packet, behind the code ffff:
    //   int<1>          number of strings
    //   int<1>          stage
    //   int<1>          max_stage
    //   int<3>          progress, in thousandths of a percent
    //   string<lenenc>  stage_info
    fn deserialize(
        alloc: Global,
        _ctx: (),
        buf: &mut ParseBuf<'de>,
    ) -> Result<ProgressReport<'de>, WireError> {
        let mut rest = *buf;
        let mut block = rest.parse::<ParseBuf>(alloc, 6)?;
        let numbers = stage_progress(&mut block)?;
        let info = read_lenenc_text(&mut rest)?;
        *buf = rest;
        Ok(ProgressReport {
            stage: numbers.stage,
            max_stage: numbers.max_stage,
            progress: numbers.progress,
            stage_info: CowSlice::Borrowed(info),
        })
    }
}

// Thousandths of a percent, shown as percents with two decimals.
#[derive(Clone, Copy)]
struct Share(u32);

impl fmt::Display for Share {
    ghost output = { λ share. Some (share_text share.0) };

    fn fmt<W: fmt::Write>(&self, f: &mut fmt::Formatter<W>) -> fmt::Result {
        write!(
            f,
            "{}.{}{}",
            self.0 / 1000,
            self.0 / 100 % 10,
            self.0 / 10 % 10
        )
    }
}

/// Shown as `Stage: 1 of 10 'stage name'  23.50% of stage done`; further decimals are cut off.
impl<'a> fmt::Display for ProgressReport<'a> {
    ghost output = { λ p. Some (progress_report_text (progress_report_view p)) };

    fn fmt<W: fmt::Write>(&self, f: &mut fmt::Formatter<W>) -> fmt::Result {
        let info = BStr::new(self.stage_info.as_slice());
        let share = Share(self.progress);
        write!(
            f,
            "Stage: {} of {} '{info}'  {share}% of stage done",
            self.stage, self.max_stage
        )
    }
}
