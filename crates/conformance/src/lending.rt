//! Replies whose rows are lent, all of them or in turn with pieces of which they are kept.

use crate::rows::DIFFERS;
use crate::tokens::put_field;
use crate::writing::{Sides, reply_of, said};
use mysql_session::{Reply, ReplyEnd, ReplyFault, ReplyReader, ReplyResult, Row, RowRef, Value};
use std::alloc::{AllocError, Global};
use std::str;
use tests_support::rows::{Token, Trouble};

/// Writes a cell: `null`, a number, or a text.
fn put_cell(words: &mut String, cell: Option<&Value>) -> Result<(), AllocError> {
    match cell {
        None | Some(Value::NULL) => words.push_str(" null"),
        Some(Value::Int(number)) => write!(words, " {number}"),
        Some(Value::Bytes(bytes)) if let Ok(text) = str::from_utf8(bytes.as_slice()) => {
            write!(words, " \"{text}\"")
        }
        Some(value) => write!(words, " {value:?}"),
    }
}

/// Writes the cells of a row that is kept.
fn put_row(words: &mut String, row: &Row) -> Result<(), AllocError> {
    words.push_str(" row:")?;
    for place in 0..row.len() {
        put_cell(words, row.as_ref(place))?;
    }
    words.push_str(" |")
}

/// Writes the cells of a row that is lent.
fn put_lent_row(alloc: Global, words: &mut String, row: RowRef<'_, '_>) -> Result<(), AllocError> {
    words.push_str(" row:")?;
    for place in 0..row.len() {
        match row.as_ref(place) {
            Some(cell) => put_cell(words, Some(&cell.to_value(alloc)?))?,
            None => put_cell(words, None)?,
        }
    }
    words.push_str(" |")
}

/// Whether a fault stays, and a piece with it.
fn stays(reader: &mut ReplyReader, piece: &[u8], fault: ReplyFault) -> bool {
    let mut rest = piece;
    reader.next_row(&mut rest).err() == Some(fault) && rest.len() == piece.len()
}

/// Writes the rows that a piece lends, up to a fault, which stays.
fn lend(
    alloc: Global,
    reader: &mut ReplyReader,
    piece: &[u8],
    rows: &mut String,
) -> Result<(), Trouble> {
    let mut rest = piece;
    // There are fewer rows than bytes.
    for _ in 0..=piece.len() {
        let fault = match reader.next_row(&mut rest) {
            Ok(Some(row)) => {
                put_lent_row(alloc, rows, row)?;
                continue;
            }
            Ok(None) => None,
            Err(fault) => Some(fault),
        };
        let is_well = match fault {
            Some(fault) => stays(reader, rest, fault),
            None => rest.is_empty(),
        };
        if is_well {
            return Ok(());
        }
    }
    Err(Trouble::Malformed("a piece isn't lent to its end, or a fault does not stay"))
}

/// Writes the rows that a result keeps, and lets them go.
fn let_go(found: &mut ReplyResult, rows: &mut String) -> Result<(), AllocError> {
    if let ReplyResult::Rows {
        columns: _,
        rows: kept,
        terminator: _,
    } = found
    {
        for row in kept.iter() {
            put_row(rows, row)?;
        }
        kept.clear();
    }
    Ok(())
}

/// Feeds a piece, and writes the rows that are kept of it.
fn keep(reader: &mut ReplyReader, piece: &[u8], rows: &mut String) -> Result<(), Trouble> {
    let _answer = reader.feed(piece);
    let mut results = reader.take_results();
    for found in results.iter_mut() {
        let_go(found, rows)?;
    }
    Ok(())
}

/// How a reply comes: in pieces of this size, of which one and the next are lent or kept in turn.
type Way = (usize, [bool; 2]);

/// Has a reader read a reply that comes so, and writes its rows as they come.
fn read_lent(
    alloc: Global,
    reader: &mut ReplyReader,
    stream: &[u8],
    (size, turns): Way,
    rows: &mut String,
) -> Result<(), Trouble> {
    let [mut is_lent, mut is_next_lent] = turns;
    for piece in stream.chunks(size.max(1)) {
        if is_lent {
            lend(alloc, reader, piece, rows)?;
        } else {
            keep(reader, piece, rows)?;
        }
        (is_lent, is_next_lent) = (is_next_lent, is_lent);
    }
    Ok(())
}

/// Writes the reports of progress, and the end.
fn put_rest(reply: &Reply, words: &mut String) -> Result<(), Trouble> {
    for report in &reply.progress {
        let Ok(stage) = str::from_utf8(report.stage_info_ref()) else {
            return Err(Trouble::Malformed("a stage has no name"));
        };
        let (of, at) = (report.max_stage(), report.progress());
        write!(
            words,
            " report: {} of {of} at {at} \"{stage}\" |",
            report.stage()
        )?;
    }
    match reply.end {
        ReplyEnd::Whole => words.push_str(" end: whole |")?,
        ReplyEnd::Unfinished => words.push_str(" end: unfinished |")?,
        ReplyEnd::Fault(_, ReplyFault::Memory) => return Err(Trouble::Memory),
        ReplyEnd::Fault(payload, fault) => write!(words, " end: fault {payload} {fault:?} |")?,
    }
    Ok(())
}

/// Writes the words of those lines that begin with this word.
fn put_lines(words: &mut String, lines: &[&[Token<'_>]], start: &str) -> Result<(), AllocError> {
    for line in lines {
        if let [Token::Word(word), ..] = *line
            && *word == start
        {
            put_field(words, line)?;
        }
    }
    Ok(())
}

/// Compares what a reply says, whose rows are written, with its lines. Where all its rows were
/// lent, it also compares it with what the reply says in one piece.
fn check_reply(
    alloc: Global,
    reply: &Reply,
    is_lent: bool,
    (wanted, others): (&str, &str),
    words: &mut String,
) -> Result<(), Trouble> {
    put_rest(reply, words)?;
    if words.as_str() != wanted {
        return Err(DIFFERS);
    }
    if is_lent && said(alloc, reply)?.as_str() != others {
        return Err(Trouble::Malformed("where rows are lent something else differs"));
    }
    Ok(())
}

/// Compares what a reply says that comes so with what is wanted.
fn check_way(
    alloc: Global,
    (kind, capabilities, first_id, limit): Sides,
    stream: &[u8],
    way: Way,
    wanted: (&str, &str),
    words: &mut String,
) -> Result<(), Trouble> {
    words.clear();
    let mut reader = ReplyReader::new(alloc, kind, capabilities, first_id, limit);
    read_lent(alloc, &mut reader, stream, way, words)?;
    let reply = reader.finish();
    check_reply(
        alloc,
        &reply,
        matches!(way, (_, [true, true])),
        wanted,
        words,
    )
}

/// What a reply says in one piece, but for its rows.
fn said_beside_rows(alloc: Global, sides: Sides, stream: &[u8]) -> Result<String, Trouble> {
    let mut reply = reply_of(alloc, sides, stream)?;
    let mut rows = String::new(alloc);
    for found in reply.results.iter_mut() {
        let_go(found, &mut rows)?;
    }
    Ok(said(alloc, &reply)?)
}

/// Compares what a reply says with what is wanted. It is read whole and in pieces of each size up
/// to 100, with all of its rows lent, and in turn lent or kept.
fn check_ways(
    alloc: Global,
    sides: Sides,
    stream: &[u8],
    wanted: (&str, &str),
    words: &mut String,
) -> Result<(), Trouble> {
    let most = stream.len().min(100);
    for size in 0..=most {
        let size = if size == 0 { stream.len() } else { size };
        for turns in [[true, true], [false, true], [true, false]] {
            check_way(alloc, sides, stream, (size, turns), wanted, words)?;
        }
    }
    Ok(())
}

/// Compares what a reply says whose rows are lent with those of its lines that are about rows,
/// reports and the end.
pub fn check_lent(
    alloc: Global,
    sides: Sides,
    stream: &[u8],
    lines: &[&[Token<'_>]],
    words: &mut String,
) -> Result<(), Trouble> {
    let mut wanted = String::new(alloc);
    for start in ["row:", "report:", "end:"] {
        put_lines(&mut wanted, lines, start)?;
    }
    let others = said_beside_rows(alloc, sides, stream)?;
    check_ways(
        alloc,
        sides,
        stream,
        (wanted.as_str(), others.as_str()),
        words,
    )
}
