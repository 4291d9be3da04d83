//! What codes say in English.

ghost use Rattle.std.specs.Prelude.{◌≡◌, ◌-◌, ℕ, List, IsTrue, length};
ghost use Rattle.mysql_c_handles.specs.Texts.{ends_at_nul};

use crate::start::start_of;

/// Shows the text of a code, and its length without the NUL byte behind it.
pub fn code_text(number: u32, text: &mut *const u8, len: &mut usize)
    ensures { (shown : List ℕ) × IsTrue (ends_at_nul shown) × (len.new ≡ length shown - 1) }
{
    let shown = text_of(number);
    *text = start_of(shown);
    *len = shown.len().saturating_sub(1);
}

/// The text of a code, with a NUL byte behind it. Of a number that is no code it says so.
fn text_of(number: u32) -> &'static [u8]
    ensures { IsTrue (ends_at_nul result.now) }
{
    match number / 100 {
        0 => text_of_answer(number),
        1 => text_of_fault(number),
        2 => text_of_cause(number),
        3 => text_of_reply_fault(number),
        4 => text_of_refusal(number),
        _ => b"no such code\0",
    }
}

/// Of a code that any call may answer.
fn text_of_answer(number: u32) -> &'static [u8]
    ensures { IsTrue (ends_at_nul result.now) }
{
    match number {
        0 => b"done\0",
        1 => b"a growth of memory was refused\0",
        2 => b"the handle stands for nothing\0",
        3 => b"the handle stands for an object of another kind\0",
        4 => b"there is no set, place or column of this number\0",
        5 => b"the limit is below 4\0",
        6 => b"the query has both named and positional placeholders\0",
        7 => b"there is no road of this number\0",
        8 => b"there is no kind of this number\0",
        9 => b"bytes of a packet are cut off, or have no such layout\0",
        10 => b"the stream is not whole where it ends\0",
        11 => b"no mode has these flags\0",
        _ => b"no such code\0",
    }
}

/// Of a fault of a stream of commands.
fn text_of_fault(number: u32) -> &'static [u8]
    ensures { IsTrue (ends_at_nul result.now) }
{
    match number {
        100 => b"the packet is larger than max_allowed_packet\0",
        101 => b"a chunk has another number than the one that is due\0",
        102 => b"stream of commands: the payload is empty\0",
        103 => b"stream of commands: the command is none that is read here\0",
        104 => b"stream of commands: the text is not the query with literals in place\0",
        105 => b"stream of commands: some placeholder of the query does not stand alone\0",
        106 => b"stream of commands: the prepare is not that of the query\0",
        107 => b"stream of commands: the query has more than 65535 placeholders\0",
        108 => b"stream of commands: the statement is not prepared\0",
        109 => b"stream of commands: the id is another statement's\0",
        110 => b"stream of commands: the execution is malformed\0",
        111 => b"stream of commands: there are no types for the values\0",
        112 => b"stream of commands: a type is not one of a parameter\0",
        113 => b"stream of commands: a value is a float\0",
        114 => b"stream of commands: the long data is for no placeholder\0",
        115 => b"stream of commands: the bulk execution is malformed\0",
        116 => b"stream of commands: an indicator is neither none nor NULL\0",
        117 => b"stream of commands: the bulk execution has no row\0",
        118 => b"stream of commands: long data waits before a bulk execution\0",
        _ => b"no such code\0",
    }
}

/// Of a cause for which sets are not sent.
fn text_of_cause(number: u32) -> &'static [u8]
    ensures { IsTrue (ends_at_nul result.now) }
{
    match number {
        200 =>
            b"not sent: a placeholder does not stand alone: a neighbour joins it, or servers read it differently\0",
        201 => b"not sent: the query has more than 65535 placeholders\0",
        202 => b"not sent: the prepare is larger than max_allowed_packet\0",
        203 => b"not sent: the query has no placeholders\0",
        204 => b"not sent: a set gives the query no values\0",
        205 => b"not sent: the values of a set are not as many as the placeholders\0",
        206 => b"not sent: a value is a float\0",
        207 => b"not sent: the command of a set is larger than max_allowed_packet\0",
        208 => b"not sent: a value is of another kind than the earlier ones of its column\0",
        209 => b"not sent: a row is larger than max_allowed_packet\0",
        _ => b"no such code\0",
    }
}

/// Of a fault of a reply.
fn text_of_reply_fault(number: u32) -> &'static [u8]
    ensures { IsTrue (ends_at_nul result.now) }
{
    match number {
        300 => b"reply: the packet is larger than max_allowed_packet\0",
        301 => b"reply: a chunk has another number than the one that is due\0",
        302 => b"reply: the first byte is none that the command allows\0",
        303 => b"reply: the count of columns can't be read\0",
        304 => b"reply: a column can't be read\0",
        305 => b"reply: an OK packet can't be read\0",
        306 => b"reply: an error or a progress report can't be read\0",
        307 => b"reply: a row can't be read\0",
        308 => b"reply: what ends columns or rows can't be read\0",
        309 => b"reply: the answer to a prepare can't be read\0",
        310 => b"reply: bytes follow the last result\0",
        _ => b"no such code\0",
    }
}

/// Of a refusal to write a reply.
fn text_of_refusal(number: u32) -> &'static [u8]
    ensures { IsTrue (ends_at_nul result.now) }
{
    match number {
        400 => b"not written: the reply has no result\0",
        401 => b"not written: the result before it ends the reply\0",
        402 => b"not written: the rows before it are not ended\0",
        403 => b"not written: no columns began these rows\0",
        404 => b"not written: the command has no such result\0",
        405 => b"not written: the result has no columns\0",
        406 => b"not written: the result has more than 65535 columns\0",
        407 => b"not written: a bit of the status has no name\0",
        408 => b"not written: the error reads as a progress report\0",
        409 => b"not written: the row has not one cell for each column\0",
        410 => b"not written: a cell has no form under its column's type\0",
        411 => b"not written: the packet is larger than max_allowed_packet\0",
        _ => b"no such code\0",
    }
}
