//! Sets as bytes: each alone, and in the block of a request for the binary log.

ghost use Rattle.std.specs.Prelude.{◌≡◌, ◌^◌, ◌-◌, ◌<◌, ◌≤◌, List, None, Option, Some, [], false, length, map, min};
ghost use Rattle.std.specs.Prelude.{unwrap_or, true};
ghost use Rattle.std.specs.Cow.{cow_slice_items};
ghost use Rattle.std.specs.List.{flat_map};
ghost use Rattle.mysql_fields.specs.Forms.{bytes_at, fixed_number_at};
ghost use Rattle.mysql_fields.specs.Laws.{unsized};
ghost use Rattle.mysql_fields.specs.Wire.{Appends, GivesPart, TellsPart};
ghost use Rattle.mysql_fields.specs.Texts.{varlen_text_at};
ghost use Rattle.mysql_field_lists.specs.Lists.{counted_at, elements_at};
ghost use Rattle.mysql_replication.specs.BlockLaws.{block_at-back, interval_at-back, interval_at-sized};
ghost use Rattle.mysql_replication.specs.Blocks.{IsBlock, IsInterval, any_tag, block_at, block_bytes, block_number};
ghost use Rattle.mysql_replication.specs.Blocks.{count_said, interval_at, interval_bytes, says_tagged, sid_at};
ghost use Rattle.mysql_replication.specs.Blocks.{sid_bytes};
ghost use Rattle.mysql_replication.specs.Blocks.{tag_at, tag_bytes, tag_named};
ghost use Rattle.mysql_replication.specs.Sids.{SidParts, sid_view};
ghost use Rattle.mysql_replication.specs.declared.interval.GnoInterval.{GnoInterval};

use crate::interval::GnoInterval;
use crate::sid::{Sid, UUID_LEN};
use crate::tag::Tag;
use bytes::BufMut;
use mysql_buf::{ParseBuf, read_varlen_uint, varlen_uint_size};
use mysql_fields::{
    LeU64, MyDeserialize, MySerialize, ParseExt, RawBytes, RawInt, Readable, ReadsBack, VarLen,
    WireError,
};
use std::alloc::{AllocError, Global};
use std::borrow::CowSlice;

/// The first number and the number after the last, eight bytes each, lowest first.
///
/// MySQL: Client/Server Protocol, "COM_BINLOG_DUMP_GTID".
#[tactic(auto, unfolding(crate::specs::Blocks::interval_bytes))]
impl MySerialize for GnoInterval {
    ghost written = { interval_bytes };

    fn serialize(&self, buf: &mut Vec<u8>) -> Result<(), AllocError> {
        let start: RawInt<LeU64> = RawInt::new(self.start());
        let end: RawInt<LeU64> = RawInt::new(self.end());
        (start, end).serialize(buf)
    }
}

impl Readable for GnoInterval {
    type Ctx = ();

    ghost SIZE = { Some 16 };

    ghost Shown = { GnoInterval };

    ghost shown = { λ interval. interval };

    ghost kept = { λ interval. interval };

    ghost read_at = { λ _ bytes. interval_at bytes };

    ghost IsReadBack = { λ _ interval _. IsInterval interval };

    ghost sized = { λ _. interval_at-sized };

    fn size() -> Option<usize> {
        Some(16)
    }
}

impl ReadsBack for GnoInterval {
    ghost reads_back = { λ _. interval_at-back };
}

#[tactic(auto, unfolding(crate::specs::Blocks::interval_at))]
impl<'de> MyDeserialize<'de> for GnoInterval {
    // An interval of a set:
    //   int<8>  start
    //   int<8>  end, the first number behind the interval
    fn deserialize(
        alloc: Global,
        _ctx: (),
        buf: &mut ParseBuf<'de>,
    ) -> Result<GnoInterval, WireError> {
        let mut rest = *buf;
        let start: RawInt<LeU64> = rest.parse(alloc, ())?;
        let end: RawInt<LeU64> = rest.parse(alloc, ())?;
        *buf = rest;
        Ok(GnoInterval::new(start.0, end.0))
    }
}

// Values one after another, written whole or not at all.
#[derive(Drop)]
struct Elements<'a, T>(&'a [T]);

impl<'a, T: MySerialize> MySerialize for Elements<'a, T> {
    ghost written = { λ x. flat_map T.written x.0.now };

    fn serialize(&self, buf: &mut Vec<u8>) -> Result<(), AllocError> {
        let all = self.0;
        let len = buf.len();
        for item in all {
            if let Err(e) = item.serialize(buf) {
                buf.truncate(len);
                return Err(e);
            }
        }
        Ok(())
    }
}

// A set, with its tag in a tagged block alone.
#[tactic(auto, unfolding(crate::specs::Blocks::sid_bytes))]
fn put_sid(tagged: bool, sid: &Sid<'_>, buf: &mut Vec<u8>) -> Result<(), AllocError>
    ensures { Appends result buf.old.items buf.new.items (sid_bytes tagged (sid_view sid.now)) }
{
    let intervals = Elements(sid.intervals());
    let count: RawInt<LeU64> = RawInt::new(sid.intervals().len() as u64);
    if tagged {
        let tag: RawBytes<VarLen> = RawBytes::new(CowSlice::Borrowed(tag_text(sid)));
        (sid.uuid(), (tag, (count, intervals))).serialize(buf)
    } else {
        (sid.uuid(), (count, intervals)).serialize(buf)
    }
}

// The text of a set's tag, no text where it has none.
#[tactic(auto, using(crate::proofs::Blocks::tag_is_short))]
fn tag_text<'a>(sid: &'a Sid<'_>) -> &'a [u8]
    ensures text { result.now ≡ unwrap_or (sid_view sid.now).tag [] }
    ensures short { length result.now ≤ 32 }
{
    match sid.tag() {
        Some(tag) => tag.as_str().as_bytes(),
        None => &[],
    }
}

// The number, the bytes that follow it, of a text.
#[tactic(auto, unfolding(mysql_buf::specs::Reading::first))]
fn text_from<'de>(rest: &mut ParseBuf<'de>) -> Result<&'de [u8], WireError>
    ensures { TellsPart (λ text. text.now) rest.new.0.now result (varlen_text_at rest.old.0.now) }
{
    let count = read_varlen_uint(rest).ok_or(WireError::UnexpectedEof)?;
    match rest.checked_eat(count as usize) {
        Some(text) => Ok(text),
        None => Err(WireError::UnexpectedEof),
    }
}

// The tag that a text is, none where it is empty. Refuses another text by UnknownValue.
fn tag_named(text: &[u8]) -> Result<Option<Tag<'_>>, WireError>
    ensures { result ≡ tag_named text.now }
{
    if text.is_empty() {
        return Ok(None);
    }
    let Ok(text) = str::from_utf8(text) else {
        return Err(WireError::UnknownValue);
    };
    match Tag::try_from(text) {
        Ok(tag) => Ok(Some(tag)),
        Err(_) => Err(WireError::UnknownValue),
    }
}

// The tag of a set, which stands in a tagged block alone.
fn tag_from<'de>(tagged: bool, rest: &mut ParseBuf<'de>) -> Result<Option<Tag<'de>>, WireError>
    ensures { TellsPart (λ tag. tag) rest.new.0.now result (tag_at tagged rest.old.0.now) }
{
    if !tagged {
        return Ok(None);
    }
    tag_named(text_from(rest)?)
}

// Intervals after their count; the list grows as they come.
#[tactic(auto, unfolding(mysql_field_lists::specs::Lists::counted_at))]
fn intervals_from(alloc: Global, rest: &mut ParseBuf) -> Result<Vec<GnoInterval>, WireError>
    ensures { GivesPart (λ intervals. intervals.items) rest.new.0.now result
        (counted_at (fixed_number_at 8) interval_at rest.old.0.now) }
{
    let count: RawInt<LeU64> = rest.parse(alloc, ())?;
    some_intervals(alloc, count.0, rest)
}

// So many intervals; the list grows as they come.
fn some_intervals(
    alloc: Global,
    count: u64,
    rest: &mut ParseBuf,
) -> Result<Vec<GnoInterval>, WireError>
    ensures { GivesPart (λ intervals. intervals.items) rest.new.0.now result
        (elements_at interval_at count rest.old.0.now) }
{
    let mut intervals = Vec::new(alloc);
    for _ in 0..count {
        let interval: GnoInterval = rest.parse(alloc, ())?;
        intervals.push(interval)?;
    }
    Ok(intervals)
}

// A set, with a tag in a tagged block alone.
#[tactic(auto, unfolding(crate::specs::Blocks::sid_at))]
fn sid_from<'de>(
    alloc: Global,
    tagged: bool,
    rest: &mut ParseBuf<'de>,
) -> Result<Sid<'de>, WireError>
    ensures { GivesPart sid_view rest.new.0.now result (sid_at tagged rest.old.0.now) }
{
    let uuid = uuid_from(alloc, rest)?;
    let tag = tag_from(tagged, rest)?;
    let intervals = intervals_from(alloc, rest)?;
    Ok(Sid::from_parts(uuid, tag, intervals))
}

// Sixteen bytes.
fn uuid_from(alloc: Global, rest: &mut ParseBuf) -> Result<[u8; UUID_LEN], WireError>
    ensures { TellsPart (λ uuid. uuid) rest.new.0.now result (bytes_at 16 rest.old.0.now) }
{
    let uuid: &[u8] = rest.parse(alloc, UUID_LEN)?;
    match <[u8; UUID_LEN]>::try_from(uuid) {
        Ok(uuid) => Ok(uuid),
        Err(_) => Err(WireError::UnexpectedEof),
    }
}

/// The UUID, and the intervals after their count in eight bytes, lowest first; a tag isn't written.
///
/// MySQL: Client/Server Protocol, "COM_BINLOG_DUMP_GTID".
impl<'a> MySerialize for Sid<'a> {
    ghost written = { λ sid. sid_bytes false (sid_view sid) };

    fn serialize(&self, buf: &mut Vec<u8>) -> Result<(), AllocError> {
        put_sid(false, self, buf)
    }
}

impl<'a> Readable for Sid<'a> {
    type Ctx = ();

    ghost AsksForMemory = { true };

    ghost Shown = { SidParts };

    ghost shown = { sid_view };

    ghost kept = { sid_view };

    ghost read_at = { λ _ bytes. sid_at false bytes };

    ghost sized = { λ _. unsized (sid_at false) };

    fn size() -> Option<usize>
        ensures { result ≡ None }
    {
        None
    }
}

/// A set without a tag. Refused by UnexpectedEof where the bytes end before it; a count larger than
/// they are is refused so, and sizes no allocation.
///
/// MySQL: Client/Server Protocol, "COM_BINLOG_DUMP_GTID".
impl<'de> MyDeserialize<'de> for Sid<'de> {
    // A set of one source:
    //   string[16]  SID, the source's UUID
    //   int<8>      number of intervals
    //   for each:
    //     int<8>  start
    //     int<8>  end
    fn deserialize(
        alloc: Global,
        _ctx: (),
        buf: &mut ParseBuf<'de>,
    ) -> Result<Sid<'de>, WireError> {
        let mut rest = *buf;
        let sid = sid_from(alloc, false, &mut rest)?;
        *buf = rest;
        Ok(sid)
    }
}

/// Sets as the block of a request for the binary log: how many there are, and each in its turn.
/// Where one of them has a tag the block is tagged, and each set has its tag after its length, 0
/// where it has none.
///
/// Promise: it is written as exactly its bytes, and read as exactly what stands there. It is read
/// back, whatever follows, where it has less than 2^32 bytes (`block_bytes`, `block_at`).
///
/// MySQL: Client/Server Protocol, "COM_BINLOG_DUMP_GTID"; Source Code Documentation, "Gtid_set::encode".
#[derive(Debug, PartialEq, Eq, Hash, Drop)]
pub struct SidBlock<'a>(pub CowSlice<'a, Sid<'a>>);

impl<'a> SidBlock<'a> {
    /// How many bytes the block takes, 2^32 - 1 where they are more.
    pub fn byte_len(&self) -> u32
        ensures { result ≡ min (length (block_bytes (map sid_view (cow_slice_items self.now.0)))) (2 ^ 32 - 1) }
    {
        let sids = self.0.as_slice();
        let tagged = any_tag(sids);
        sids_len(tagged, sids).saturating_add(8)
    }
}

// Whether a set has a tag.
fn any_tag(sids: &[Sid<'_>]) -> bool
    ensures { result ≡ any_tag (map sid_view sids.now) }
{
    for sid in sids {
        if sid.tag().is_some() {
            return true;
        }
    }
    false
}

// The number at the front of a block.
#[tactic(auto, unfolding(crate::specs::Blocks::block_number))]
fn block_number(tagged: bool, count: usize) -> u64
    ensures { result ≡ block_number tagged count }
{
    let count = count as u64;
    if tagged {
        (1 << 56) + 256 * (count % (1 << 48))
    } else {
        count
    }
}

// Whether the number at the front says that the block is tagged.
fn says_tagged(number: u64) -> bool
    ensures { result ≡ says_tagged number }
{
    number / (1 << 56) == 1
}

// How many sets the number at the front says.
fn count_said(number: u64) -> u64
    ensures { result ≡ count_said number }
{
    if says_tagged(number) {
        number / 256 % (1 << 48)
    } else {
        number % (1 << 56)
    }
}

// How many bytes a set takes, 2^32 - 1 where they are more.
fn sid_len(tagged: bool, sid: &Sid<'_>) -> u32
    ensures { result ≡ min (length (sid_bytes tagged (sid_view sid.now))) (2 ^ 32 - 1) }
{
    let intervals = (sid.intervals().len() as u64).saturating_mul(16);
    let uuid = sid.uuid();
    let uuid_len = uuid.as_slice().len() as u64;
    let len = intervals.saturating_add(uuid_len);
    let len = len.saturating_add(8 + tag_len(tagged, sid));
    len.min(u32::MAX as u64) as u32
}

// How many bytes a set's tag takes.
fn tag_len(tagged: bool, sid: &Sid<'_>) -> u64
    ensures value { result ≡ length (tag_bytes tagged (sid_view sid.now).tag) }
    ensures bound { result < 64 }
{
    if !tagged {
        return 0;
    }
    let len = tag_text(sid).len();
    (varlen_uint_size(len as u64) + len) as u64
}

// How many bytes sets take, 2^32 - 1 where they are more.
fn sids_len(tagged: bool, sids: &[Sid<'_>]) -> u32
    ensures { result ≡ min (length (flat_map (sid_bytes tagged) (map sid_view sids.now))) (2 ^ 32 - 1) }
{
    let mut len: u32 = 0;
    for sid in sids {
        len = len.saturating_add(sid_len(tagged, sid));
    }
    len
}

// Sets one after another, written whole or not at all.
fn put_sids(tagged: bool, sids: &[Sid<'_>], buf: &mut Vec<u8>) -> Result<(), AllocError>
    ensures { Appends result buf.old.items buf.new.items (flat_map (sid_bytes tagged) (map sid_view sids.now)) }
{
    let len = buf.len();
    for sid in sids {
        if let Err(e) = put_sid(tagged, sid, buf) {
            buf.truncate(len);
            return Err(e);
        }
    }
    Ok(())
}

#[tactic(auto, unfolding(crate::specs::Blocks::block_bytes))]
impl<'a> MySerialize for SidBlock<'a> {
    ghost written = { λ block. block_bytes (map sid_view (cow_slice_items block.0)) };

    fn serialize(&self, buf: &mut Vec<u8>) -> Result<(), AllocError> {
        let sids = self.0.as_slice();
        let tagged = any_tag(sids);
        let len = buf.len();
        buf.put_u64_le(block_number(tagged, sids.len()))?;
        let answer = put_sids(tagged, sids, buf);
        if answer.is_err() {
            buf.truncate(len);
        }
        answer
    }
}

impl<'a> Readable for SidBlock<'a> {
    type Ctx = ();

    ghost AsksForMemory = { true };

    ghost Shown = { List SidParts };

    ghost shown = { λ block. map sid_view (cow_slice_items block.0) };

    ghost kept = { λ block. map sid_view (cow_slice_items block.0) };

    ghost read_at = { λ _ bytes. block_at bytes };

    ghost IsReadBack = { λ _ block _. IsBlock (map sid_view (cow_slice_items block.0)) };

    ghost sized = { λ _. unsized block_at };

    fn size() -> Option<usize>
        ensures { result ≡ None }
    {
        None
    }
}

impl<'a> ReadsBack for SidBlock<'a> {
    ghost reads_back = { λ _ block. block_at-back (map sid_view (cow_slice_items block.0)) };
}

// So many sets; the list grows as they come.
fn sids_from<'de>(
    alloc: Global,
    tagged: bool,
    count: u64,
    rest: &mut ParseBuf<'de>,
) -> Result<Vec<Sid<'de>>, WireError>
    ensures { GivesPart (λ sids. map sid_view sids.items) rest.new.0.now result
        (elements_at (sid_at tagged) count rest.old.0.now) }
{
    let mut sids = Vec::new(alloc);
    for _ in 0..count {
        let sid = sid_from(alloc, tagged, rest)?;
        sids.push(sid)?;
    }
    Ok(sids)
}

/// Reads a block. Refused by UnexpectedEof where the bytes end before its sets do, and by
/// UnknownValue for a text that is no tag, whichever stands first. A count larger than the bytes
/// sizes no allocation.
///
/// MySQL: Client/Server Protocol, "COM_BINLOG_DUMP_GTID"; Source Code Documentation, "Gtid_set::encode".
#[tactic(auto, unfolding(crate::specs::Blocks::block_at))]
impl<'de> MyDeserialize<'de> for SidBlock<'de> {
    // The data of COM_BINLOG_DUMP_GTID:
    //   int<8>  number of sets, in its low seven bytes; where its highest byte is 01 the sets have tags,
    //           and their number is in its bytes 1 to 6
    //   for each set:
    //     string[16]  SID, the source's UUID
    //     tag, in a block with tags: its length as a number of variable length, and its bytes
    //     int<8>      number of intervals
    //     int<8> start and int<8> end of each
    fn deserialize(
        alloc: Global,
        _ctx: (),
        buf: &mut ParseBuf<'de>,
    ) -> Result<SidBlock<'de>, WireError> {
        let mut rest = *buf;
        let number: RawInt<LeU64> = rest.parse(alloc, ())?;
        let tagged = says_tagged(number.0);
        let sids = sids_from(alloc, tagged, count_said(number.0), &mut rest)?;
        *buf = rest;
        Ok(SidBlock(CowSlice::Owned(sids)))
    }
}
