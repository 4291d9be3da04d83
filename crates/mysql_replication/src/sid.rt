//! Sets of global transaction identifiers of one source: its UUID, a tag, and intervals.
//!
//!     let sid = Sid::parse(alloc, "3e11fa47-71ca-11e1-9e33-c80aa9429562:1-5:7")?;
//!     let intervals = sid.intervals();

ghost use Rattle.std.specs.Prelude.{◌≡◌, ◌++◌, ◌∷◌, [], IfOk, MatchOption, None, Some};
ghost use Rattle.std.specs.List.{flat_map};
ghost use Rattle.mysql_replication.specs.Intervals.{interval_text, intervals_of};
ghost use Rattle.mysql_replication.specs.Refusals.{Answers, Gives};
ghost use Rattle.mysql_replication.specs.Sids.{begins_with_digit, fields_of, sid_of, sid_text, sid_view};
ghost use Rattle.mysql_replication.specs.Sids.{tag_and_intervals};
ghost use Rattle.mysql_replication.specs.Sids.{tag_text, uuid_of};

use crate::error::SidError;
use crate::interval::GnoInterval;
use crate::tag::Tag;
use std::alloc::{AllocError, Global};
use std::borrow::CowStr;
use std::fmt;
use uuid::Uuid;

/// How many bytes a UUID has.
pub const UUID_LEN: usize = 16;

/// A set of global transaction identifiers of one source.
///
/// It has the source's UUID, a tag if there is one, and intervals of transaction numbers in any
/// order.
///
/// MySQL Reference Manual, "GTID Sets".
#[derive(Debug, PartialEq, Eq, Hash, Drop)]
pub struct Sid<'a> {
    uuid: [u8; UUID_LEN],
    tag: Option<Tag<'a>>,
    intervals: Vec<GnoInterval>,
}

impl<'a> Sid<'a> {
    /// A set without a tag and without intervals.
    pub fn new(alloc: Global, uuid: [u8; UUID_LEN]) -> Sid<'a>
        ensures { sid_view result ≡ record { uuid = uuid; tag = None; intervals = [] } }
    {
        Sid {
            uuid,
            tag: None,
            intervals: Vec::new(alloc),
        }
    }

    /// The set with these parts.
    pub(crate) fn from_parts(
        uuid: [u8; UUID_LEN],
        tag: Option<Tag<'a>>,
        intervals: Vec<GnoInterval>,
    ) -> Sid<'a>
        ensures { sid_view result ≡ record { uuid = uuid; tag = tag.entry; intervals = intervals.items } }
    {
        Sid {
            uuid,
            tag,
            intervals,
        }
    }

    /// The set that a text writes: a UUID, a tag if there is one, and intervals.
    ///
    /// The intervals are `n` or `n-m`, and colons stand between all parts. A tag stands where what
    /// follows the UUID begins with no digit; numbers may begin with a plus.
    ///
    /// Promise: exactly the set is answered that the grammar of such texts gives, or its leftmost
    /// fault (`sid_of`).
    ///
    /// # Errors
    /// What stands leftmost is refused:
    /// - `NoColon`.
    /// - `BadUuid`.
    /// - `Empty` where nothing follows the first colon.
    /// - `NoIntervals` where what follows begins with no digit and holds no colon.
    /// - `BadTag`.
    /// - For each interval in its turn `BadInterval`, `Overflow`, `StartNotBelowEnd`, `ZeroGno`.
    ///
    /// MySQL Reference Manual, "GTID Sets".
    pub fn parse(alloc: Global, text: &str) -> Result<Sid<'static>, SidError>
        ensures { Gives sid_view result (sid_of text.now) }
    {
        let Some((front, rest)) = around_colon(text) else {
            return Err(SidError::NoColon);
        };
        let uuid = uuid_of(front)?;
        let (tag, rest) = tag_of(rest)?;
        let intervals = intervals_of(alloc, rest)?;
        let tag = owned(alloc, tag)?;
        Ok(Sid {
            uuid,
            tag,
            intervals,
        })
    }

    /// The set with this tag.
    pub fn with_tag(mut self, tag: Tag<'a>) -> Sid<'a>
        ensures { sid_view result ≡ record (sid_view self.entry) { tag = Some tag.entry } }
    {
        self.tag = Some(tag);
        self
    }

    /// The set with this interval behind its others.
    ///
    /// # Errors
    /// - `AllocError` for want of memory. The set is gone then.
    pub fn with_interval(mut self, interval: GnoInterval) -> Result<Sid<'a>, AllocError>
        ensures { IfOk result (λ sid. sid_view sid ≡
            record (sid_view self.entry) {
              intervals = (sid_view self.entry).intervals ++ interval ∷
                  [];
            }) }
    {
        self.intervals.push(interval)?;
        Ok(self)
    }

    /// The set with these intervals in place of its own.
    pub fn with_intervals(mut self, intervals: Vec<GnoInterval>) -> Sid<'a>
        ensures { sid_view result ≡ record (sid_view self.entry) { intervals = intervals.items } }
    {
        self.intervals = intervals;
        self
    }

    /// A copy of the set, which borrows nothing.
    pub fn clone(&self, alloc: Global) -> Result<Sid<'static>, AllocError>
        ensures { IfOk result (λ sid. sid_view sid ≡ sid_view self.now) }
    {
        let tag = copied(alloc, &self.tag)?;
        let intervals = Vec::from_slice(alloc, self.intervals.as_slice())?;
        Ok(Sid {
            uuid: self.uuid,
            tag,
            intervals,
        })
    }

    /// The bytes of the source's UUID.
    pub fn uuid(&self) -> [u8; UUID_LEN]
        ensures { result ≡ (sid_view self.now).uuid }
    {
        self.uuid
    }

    /// The tag.
    pub fn tag(&self) -> Option<&Tag<'a>>
        ensures { MatchOption result ((sid_view self.now).tag ≡ None) (λ tag. (sid_view self.now).tag ≡ Some tag.now) }
    {
        self.tag.as_ref()
    }

    /// The intervals, in their order.
    pub fn intervals(&self) -> &[GnoInterval]
        ensures { result.now ≡ (sid_view self.now).intervals }
    {
        self.intervals.as_slice()
    }
}

impl<'a> fmt::Display for Sid<'a> {
    ghost output = { λ sid. Some (sid_text (sid_view sid)) };

    fn fmt<W: fmt::Write>(&self, f: &mut fmt::Formatter<W>) -> fmt::Result {
        let uuid = Uuid::from_bytes(self.uuid).hyphenated();
        let tag = TagPart(&self.tag);
        let intervals = IntervalsPart(self.intervals.as_slice());
        write!(f, "{uuid}{tag}{intervals}")
    }
}

// A tag behind a colon, where there is one.
#[derive(Drop)]
struct TagPart<'x, 'a>(&'x Option<Tag<'a>>);

impl<'x, 'a> fmt::Display for TagPart<'x, 'a> {
    ghost output = { λ part. Some (tag_text part.0.now) };

    fn fmt<W: fmt::Write>(&self, f: &mut fmt::Formatter<W>) -> fmt::Result {
        if let Some(tag) = self.0 {
            write!(f, ":{tag}")?;
        }
        Ok(())
    }
}

// Intervals, each behind a colon.
#[derive(Drop)]
struct IntervalsPart<'x>(&'x [GnoInterval]);

impl<'x> fmt::Display for IntervalsPart<'x> {
    ghost output = { λ part. Some (flat_map (λ interval. 58 ∷ interval_text interval) part.0.now) };

    fn fmt<W: fmt::Write>(&self, f: &mut fmt::Formatter<W>) -> fmt::Result {
        for interval in self.0 {
            write!(f, ":{interval}")?;
        }
        Ok(())
    }
}

/// The bytes of the UUID that a text writes. Refuses BadUuid.
fn uuid_of(text: &str) -> Result<[u8; UUID_LEN], SidError>
    ensures { result ≡ uuid_of text.now }
{
    match Uuid::parse_str(text) {
        Ok(uuid) => Ok(uuid.into_bytes()),
        Err(_) => Err(SidError::BadUuid),
    }
}

/// Whether a text begins with a digit.
fn begins_with_digit(text: &str) -> bool
    ensures { result ≡ begins_with_digit text.now }
{
    matches!(text.as_bytes(), [b'0'..=b'9', ..])
}

/// The two parts of a text around its first colon.
fn around_colon(text: &str) -> Option<(&str, &str)>
    ensures { MatchOption result (fields_of text.now ≡ text.now ∷
        []) (λ parts. (fields_of text.now ≡ parts.0.now ∷ fields_of parts.1.now) ×
        (text.now ≡ parts.0.now ++ 58 ∷ parts.1.now)) }
{
    text.split_once(':')
}

/// The tag at the front of what stands behind a UUID, and the text of the intervals. Refuses Empty,
/// NoIntervals and BadTag.
fn tag_of(rest: &str) -> Result<(Option<Tag<'_>>, &str), SidError>
    ensures { Answers (λ parts. (parts.0, fields_of parts.1.now)) result (tag_and_intervals (fields_of rest.now)) }
{
    if rest.is_empty() {
        return Err(SidError::Empty);
    }
    if begins_with_digit(rest) {
        return Ok((None, rest));
    }
    let Some((front, intervals)) = around_colon(rest) else {
        return Err(SidError::NoIntervals);
    };
    match Tag::new(CowStr::Borrowed(front)) {
        Ok(tag) => Ok((Some(tag), intervals)),
        Err(_) => Err(SidError::BadTag),
    }
}

/// The intervals that a text writes, with colons between. Refuses those of each field in its turn.
fn intervals_of(alloc: Global, text: &str) -> Result<Vec<GnoInterval>, SidError>
    ensures { Gives (λ intervals. intervals.items) result (intervals_of (fields_of text.now)) }
{
    let mut intervals = Vec::new(alloc);
    for field in text.split(':') {
        let interval = GnoInterval::parse(field)?;
        intervals.push(interval)?;
    }
    Ok(intervals)
}

/// The tag in bytes of its own: it borrows nothing.
fn owned(alloc: Global, tag: Option<Tag<'_>>) -> Result<Option<Tag<'static>>, AllocError>
    ensures { IfOk result (λ own. own ≡ tag.entry) }
{
    match tag {
        None => Ok(None),
        Some(tag) => Ok(Some(tag.into_owned(alloc)?)),
    }
}

/// A copy of a tag, which borrows nothing.
fn copied(alloc: Global, tag: &Option<Tag<'_>>) -> Result<Option<Tag<'static>>, AllocError>
    ensures { IfOk result (λ own. own ≡ tag.now) }
{
    match tag {
        None => Ok(None),
        Some(tag) => Ok(Some(tag.clone(alloc)?)),
    }
}
