//! For the proof alone: what holds of each set of transactions, as its numbers are those of Rust.

ghost use Rattle.std.specs.Prelude.{map};
ghost use Rattle.std.specs.List.{AllByRecursion};
ghost use Rattle.mysql_replication.specs.Blocks.{IsInterval, IsSid, IsTagOrNone};
ghost use Rattle.mysql_replication.specs.Sids.{sid_view};

use mysql_replication::{GnoInterval, Sid};

/// An interval's numbers have eight bytes.
fn interval_is(interval: &GnoInterval)
    ensures { IsInterval interval.now }
{
    let _start = interval.start();
    let _end = interval.end();
}

/// Each interval is one.
fn intervals_are(intervals: &[GnoInterval])
    ensures { AllByRecursion IsInterval intervals.now }
{
    for interval in intervals {
        interval_is(interval);
    }
}

/// A tag is one, where there is one.
fn tag_is(sid: &Sid<'_>)
    ensures { IsTagOrNone (sid_view sid.now).tag }
{
    if let Some(tag) = sid.tag() {
        let _text = tag.as_str();
    }
}

/// A set is one.
fn sid_is(sid: &Sid<'_>)
    ensures { IsSid (sid_view sid.now) }
{
    let _uuid = sid.uuid();
    tag_is(sid);
    intervals_are(sid.intervals());
}

/// Each set is one.
pub(crate) fn sids_are(sids: &[Sid<'_>])
    ensures { AllByRecursion IsSid (map sid_view sids.now) }
{
    for sid in sids {
        sid_is(sid);
    }
}
