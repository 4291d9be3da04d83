//! Executions of prepared statements: the values in the binary format, and those that go as long
//! data.
//!
//!     let builder = ComStmtExecuteRequestBuilder::new(stmt_id);
//!     let (request, apart) = builder.build(alloc, &values)?;
//!     request.serialize(&mut payload)?;

ghost use Rattle.std.specs.Prelude.{◌≡◌, ◌++◌, ◌∷◌, ◌<◌, ◌≤◌, IfOk, None, OnOk, Some, SomeIff, flat_map, if◌then◌else◌};
ghost use Rattle.std.specs.Prelude.{is_none, length, map, take};
ghost use Rattle.byteorder.specs.Endian.{little_bytes};
ghost use Rattle.mysql_buf.specs.Writing.{lenenc_str};
ghost use Rattle.mysql_cells.specs.Cells.{bin_len, cell};
ghost use Rattle.mysql_cells.specs.Values.{content_of, first_float};
ghost use Rattle.mysql_fields.specs.Wire.{Appends};
ghost use Rattle.mysql_stmt.specs.Executions.{execute_command, execution, execution_of};
ghost use Rattle.mysql_stmt.specs.Executions.{needs_long_data as has_to_be_apart, null_bitmap, parameters, sent_cell};
ghost use Rattle.mysql_stmt.specs.Executions.{type_bytes, whole_size};
ghost use Rattle.mysql_stmt.specs.Views.{execution_view};

use crate::has_value::HasValue;
use crate::headers::{ComStmtExecuteHeader, IterationCount};
use crate::in_room::{make_room, push_eight, push_short};
use crate::null_bits::{null_bitmap_of, put_null_bitmap};
use mysql_buf::{BufMutExt, lenenc_str_len};
use mysql_cells::Value;
use mysql_const::{ColumnType, CursorType, MAX_PAYLOAD_LEN, StmtExecuteParamsFlags};
use mysql_fields::{IntRepr, LeI64, LeU32, MySerialize, RawInt, in_order};
use std::alloc::{AllocError, Global};
use std::mem::replace;

// The bytes of a text that is copied byte by byte: a call that copies it takes longer.
const SHORT: usize = 40;

/// Makes executions of a prepared statement.
///
/// MySQL: Client/Server Protocol, "COM_STMT_EXECUTE".
#[derive(Debug, Clone, Copy, PartialEq)]
pub struct ComStmtExecuteRequestBuilder {
    /// The statement's id.
    pub stmt_id: u32,
}

impl ComStmtExecuteRequestBuilder {
    /// Where the bitmap begins in an execution, in bytes.
    pub const NULL_BITMAP_OFFSET: usize = 10;

    /// Makes executions of the statement with this id.
    pub fn new(stmt_id: u32) -> ComStmtExecuteRequestBuilder
        ensures { result.stmt_id ≡ stmt_id }
    {
        ComStmtExecuteRequestBuilder { stmt_id }
    }

    /// The execution with these values, and whether their byte strings are sent before it as long
    /// data.
    ///
    /// That is so where an execution that holds them exceeds the most bytes of one chunk. The
    /// values are at most 65535.
    ///
    /// Promise: the execution has the cells of all values but, exactly where it would exceed
    /// 16777215 bytes, its byte strings (`execution_of`, `needs_long_data`).
    ///
    /// # Errors
    /// - `AllocError` for want of memory.
    ///
    /// MySQL: Client/Server Protocol, "COM_STMT_EXECUTE" and "COM_STMT_SEND_LONG_DATA".
    pub fn build<'a>(
        self,
        alloc: Global,
        params: &'a [Value],
    ) -> Result<(ComStmtExecuteRequest<'a>, bool), AllocError>
        requires { length params.now ≤ 65535 }
        ensures request { IfOk result (λ made. execution_view made.0 ≡
            execution_of self.stmt_id params.entry.now (has_to_be_apart params.entry.now)) }
        ensures apart { IfOk result (λ made. made.1 ≡ has_to_be_apart params.entry.now) }
    {
        self.build_from_refs(alloc, lent(alloc, params)?)
    }

    /// [`build`](Self::build) of values that lie apart from each other.
    pub fn build_from_refs<'a>(
        self,
        alloc: Global,
        params: Vec<&'a Value>,
    ) -> Result<(ComStmtExecuteRequest<'a>, bool), AllocError>
        requires { length params.items ≤ 65535 }
        ensures request { let values = map (λ value. value.now) params.entry.items in
            IfOk result (λ made. execution_view made.0 ≡
            execution_of self.stmt_id values (has_to_be_apart values)) }
        ensures apart { IfOk result (λ made. made.1 ≡ has_to_be_apart (map (λ value. value.now) params.entry.items)) }
    {
        let bitmap = null_bitmap_of(alloc, &params)?;
        let as_long_data = needs_long_data(&params);
        let request = ComStmtExecuteRequest {
            stmt_id: self.stmt_id,
            bitmap,
            params,
            as_long_data,
        };
        Ok((request, as_long_data))
    }
}

// A reference to each value.
fn lent<'a>(alloc: Global, values: &'a [Value]) -> Result<Vec<&'a Value>, AllocError>
    ensures { IfOk result (λ lent. map (λ value. value.now) lent.items ≡ values.entry.now) }
{
    let mut lent = Vec::with_capacity(alloc, values.len())?;
    for value in values {
        lent.push(value)?;
    }
    Ok(lent)
}

/// The bytes of an execution that holds the cells of all these values, at most `most`.
///
/// None where it has more. The values are at most 65535. An execution without values has 10 bytes,
/// and counts as one of 11 here.
///
/// Promise: the size is that of the whole execution, where it is at most the given number
/// (`whole_size`).
///
/// MySQL: Client/Server Protocol, "COM_STMT_EXECUTE".
pub fn size_within<V: HasValue>(values: &[V], most: usize) -> Option<usize>
    requires { length values.now ≤ 65535 }
    ensures { SomeIff result (whole_size (map V.value values.now) ≤ most) (whole_size (map V.value values.now)) }
{
    let head = 10 + (values.len() + 7) / 8 + 1 + 2 * values.len();
    let mut room = most.checked_sub(head)? as u64;
    for value in values {
        room = room.checked_sub(value.value().bin_len())?;
    }
    Some(most - room as usize)
}

// The bytes of a value's cell; none for a float.
#[inline(always)]
fn exact_cell_size(value: &Value) -> Option<u64>
    ensures { result ≡ (if is_none (content_of value.now) then None else Some (bin_len value.now)) }
{
    match value {
        Value::NULL => Some(0),
        Value::Bytes(bytes) => Some(lenenc_str_len(bytes.as_slice())),
        Value::Int(_) | Value::UInt(_) => Some(8),
        Value::Float(_) | Value::Double(_) => None,
        Value::Date(..) | Value::Time(..) => Some(value.bin_len()),
    }
}

/// [`size_within`] for senders that refuse floats: `None` also where a value is one.
///
/// Both are found in one pass over the values.
///
/// MySQL: Client/Server Protocol, "COM_STMT_EXECUTE".
pub fn size_without_floats<V: HasValue>(values: &[V], most: usize) -> Option<usize>
    requires { length values.now ≤ 65535 }
    ensures { SomeIff result ((first_float (map V.value values.now) ≡ None) ×
        (whole_size (map V.value values.now) ≤ most)) (whole_size (map V.value values.now)) }
{
    let head = 10 + (values.len() + 7) / 8 + 1 + 2 * values.len();
    let mut room = most.checked_sub(head)? as u64;
    for value in values {
        room = room.checked_sub(exact_cell_size(value.value())?)?;
    }
    Some(most - room as usize)
}

// Whether an execution that holds all cells exceeds the most bytes of one chunk.
fn needs_long_data(values: &[&Value]) -> bool
    requires { length values.now ≤ 65535 }
    ensures { result ≡ has_to_be_apart (map (λ value. value.now) values.now) }
{
    size_within(values, MAX_PAYLOAD_LEN).is_none()
}

/// An execution of a prepared statement: no cursor, a count of 1, and types for all values.
///
/// MySQL: Client/Server Protocol, "COM_STMT_EXECUTE".
#[derive(Debug, PartialEq, Drop)]
pub struct ComStmtExecuteRequest<'a> {
    stmt_id: u32,
    bitmap: Vec<u8>,
    params: Vec<&'a Value>,
    as_long_data: bool,
}

impl<'a> ComStmtExecuteRequest<'a> {
    /// The statement's id.
    pub fn stmt_id(&self) -> u32
        ensures { result ≡ (execution_view self.now).stmt_id }
    {
        self.stmt_id
    }

    /// A copy, of references to the same values.
    ///
    /// # Errors
    /// - `AllocError` for want of memory.
    pub fn clone(&self, alloc: Global) -> Result<ComStmtExecuteRequest<'a>, AllocError>
        ensures { IfOk result (λ copy. execution_view copy ≡ execution_view self.now) }
    {
        let bitmap = Vec::from_slice(alloc, &self.bitmap)?;
        let params = Vec::from_slice(alloc, &self.params)?;
        Ok(ComStmtExecuteRequest {
            stmt_id: self.stmt_id,
            bitmap,
            params,
            as_long_data: self.as_long_data,
        })
    }

    /// The cursor that is asked for: none.
    pub fn flags(&self) -> CursorType
        ensures { result.0 ≡ 0 }
    {
        CursorType::CURSOR_TYPE_NO_CURSOR
    }

    /// A bit for each value, 1 for NULL, the first one the lowest of the first byte. Unused bits are 0.
    ///
    /// MySQL: Client/Server Protocol, "Null-Bitmap".
    pub fn bitmap(&self) -> &[u8]
        ensures { result.now ≡ (execution_view self.now).bitmap }
    {
        &self.bitmap
    }

    /// That types are sent.
    pub fn params_flags(&self) -> StmtExecuteParamsFlags
        ensures { result.0 ≡ 1 }
    {
        StmtExecuteParamsFlags::NEW_PARAMS_BOUND
    }

    /// The values.
    pub fn params(&self) -> &[&'a Value]
        ensures { map (λ value. value.now) result.now ≡ (execution_view self.now).values }
    {
        &self.params
    }

    /// Whether byte strings are sent before the execution as long data, and so have no cells in it.
    pub fn as_long_data(&self) -> bool
        ensures { result ≡ (execution_view self.now).apart }
    {
        self.as_long_data
    }
}

// Bytes as they are.
#[derive(Clone, Copy)]
struct Plain<'a>(&'a [u8]);

impl<'a> MySerialize for Plain<'a> {
    ghost written = { λ bytes. bytes.0.now };

    fn serialize(&self, buf: &mut Vec<u8>) -> Result<(), AllocError> {
        buf.extend_from_slice(self.0)
    }
}

// The type of one value.
#[inline(always)]
fn type_of(value: &Value) -> [u8; 2]
    ensures { result ≡ type_bytes value.now }
{
    match value {
        Value::NULL => [u8::from(ColumnType::MYSQL_TYPE_NULL), 0],
        Value::Bytes(_) => [u8::from(ColumnType::MYSQL_TYPE_VAR_STRING), 0],
        Value::Int(_) => [u8::from(ColumnType::MYSQL_TYPE_LONGLONG), 0],
        Value::UInt(_) => [u8::from(ColumnType::MYSQL_TYPE_LONGLONG), 0x80],
        Value::Float(_) => [u8::from(ColumnType::MYSQL_TYPE_FLOAT), 0],
        Value::Double(_) => [u8::from(ColumnType::MYSQL_TYPE_DOUBLE), 0],
        Value::Date(..) => [u8::from(ColumnType::MYSQL_TYPE_DATETIME), 0],
        Value::Time(..) => [u8::from(ColumnType::MYSQL_TYPE_TIME), 0],
    }
}

// The types of values, into room that is made for all.
#[inline(always)]
fn put_types<V: HasValue>(values: &[V], buf: &mut Vec<u8>) -> Result<(), AllocError>
    ensures { Appends result buf.old.items buf.new.items (flat_map (λ value. type_bytes (V.value value)) values.now) }
{
    let Some(room) = values.len().checked_mul(2) else {
        return Err(AllocError);
    };
    make_room(room, buf)?;
    // The length of what no reference leads to isn't written back for each byte.
    let mut types = replace(buf, Vec::new(*buf.allocator()));
    for value in values {
        let [number, flags] = type_of(value.value());
        types.push_reserved(number);
        types.push_reserved(flags);
    }
    *buf = types;
    Ok(())
}

#[derive(Clone, Copy)]
struct Types<'a>(&'a [&'a Value]);

impl<'a> MySerialize for Types<'a> {
    ghost written = { λ types. flat_map type_bytes (map (λ value. value.now) types.0.now) };

    fn serialize(&self, buf: &mut Vec<u8>) -> Result<(), AllocError> {
        put_types(self.0, buf)
    }
}

/// Appends a byte string after its length as a length-encoded number. A short one is copied in place.
///
/// # Errors
/// - `AllocError` for want of memory; nothing is changed then.
///
/// MySQL: Client/Server Protocol, "Protocol::LengthEncodedString".
#[inline(always)]
pub fn put_text(text: &[u8], buf: &mut Vec<u8>) -> Result<(), AllocError>
    ensures { Appends result buf.old.items buf.new.items (lenenc_str text.now) }
{
    if text.len() > SHORT {
        let mut whole = replace(buf, Vec::new(*buf.allocator()));
        let put = put_long_text(text, &mut whole);
        *buf = whole;
        return put;
    }
    make_room(text.len() + 1, buf)?;
    buf.push_reserved(text.len() as u8);
    push_short(text, buf);
    Ok(())
}

// Appends a byte string whose length has two bytes behind its mark.
#[inline(always)]
fn put_marked_text(text: &[u8], buf: &mut Vec<u8>) -> Result<(), AllocError>
    requires least { 250 < length text.now }
    requires most { length text.now < 65536 }
    ensures { Appends result buf.old.items buf.new.items (lenenc_str text.now) }
{
    make_room(text.len() + 3, buf)?;
    let [low, high] = (text.len() as u16).to_le_bytes();
    buf.push_reserved(0xfc);
    buf.push_reserved(low);
    buf.push_reserved(high);
    buf.extend_from_slice(text).unwrap();
    Ok(())
}

// Appends a byte string that isn't short, by a call that copies it.
#[inline(never)]
fn put_long_text(text: &[u8], buf: &mut Vec<u8>) -> Result<(), AllocError>
    ensures { Appends result buf.old.items buf.new.items (lenenc_str text.now) }
{
    if 250 < text.len() && text.len() < 65536 {
        return put_marked_text(text, buf);
    }
    buf.put_lenenc_str(text)
}

/// Appends a number's eight bytes.
///
/// # Errors
/// - `AllocError` for want of memory; nothing is changed then.
///
/// MySQL: Client/Server Protocol, "Binary Protocol Value".
#[inline(always)]
pub fn put_number(bytes: [u8; 8], buf: &mut Vec<u8>) -> Result<(), AllocError>
    requires { length bytes ≡ 8 }
    ensures { Appends result buf.old.items buf.new.items bytes }
{
    make_room(8, buf)?;
    push_eight(bytes, buf);
    Ok(())
}

// Appends the cell of a value of any kind, in another vector than the one at hand, so that no reference leads to that.
#[inline(always)]
fn put_other(value: &Value, buf: &mut Vec<u8>) -> Result<(), AllocError>
    ensures { Appends result buf.old.items buf.new.items (cell value.now) }
{
    let mut whole = replace(buf, Vec::new(*buf.allocator()));
    let put = value.serialize(&mut whole);
    *buf = whole;
    put
}

// The cell of one value, where it has one. The kinds that most values have come first.
#[inline(always)]
fn put_cell(value: &Value, apart: bool, buf: &mut Vec<u8>) -> Result<(), AllocError>
    ensures { Appends result buf.old.items buf.new.items (sent_cell apart value.now) }
{
    match value {
        Value::NULL => Ok(()),
        Value::Bytes(_) if apart => Ok(()),
        Value::Bytes(bytes) => put_text(bytes.as_slice(), buf),
        Value::Int(number) => put_number(number.to_le_bytes(), buf),
        Value::UInt(number) => put_number(number.to_le_bytes(), buf),
        _ => put_other(value, buf),
    }
}

// Appends the cells of values.
#[inline(always)]
fn put_cells<V: HasValue>(values: &[V], apart: bool, buf: &mut Vec<u8>) -> Result<(), AllocError>
    ensures { Appends result buf.old.items buf.new.items
        (flat_map (λ value. sent_cell apart (V.value value)) values.now) }
{
    let len = buf.len();
    for value in values {
        if let Err(e) = put_cell(value.value(), apart, buf) {
            buf.truncate(len);
            return Err(e);
        }
    }
    Ok(())
}

#[derive(Clone, Copy)]
struct Cells<'a> {
    values: &'a [&'a Value],
    apart: bool,
}

impl<'a> MySerialize for Cells<'a> {
    ghost written = { λ cells. flat_map (sent_cell cells.apart) (map (λ value. value.now) cells.values.now) };

    fn serialize(&self, buf: &mut Vec<u8>) -> Result<(), AllocError> {
        put_cells(self.values, self.apart, buf)
    }
}

// What stands before what an execution carries of its values.
#[inline(always)]
fn head(id: u32) -> [u8; 10]
    ensures { result ≡ 23 ∷ (little_bytes 4 id ++ 0 ∷ little_bytes 4 1) }
{
    let [a, b, c, d] = id.to_le_bytes();
    [23, a, b, c, d, 0, 1, 0, 0, 0]
}

// Appends what an execution of values carries of them. After a refusal what stood before stands in front.
#[inline(always)]
fn put_parameters<V: HasValue>(
    values: &[V],
    apart: bool,
    out: &mut Vec<u8>,
) -> Result<(), AllocError>
    requires { length values.now ≤ 65535 }
    ensures ok { OnOk result (out.new.items ≡ out.old.items ++
        parameters (null_bitmap (map V.value values.now)) (map V.value values.now) apart) }
    ensures kept { take (length out.old.items) out.new.items ≡ out.old.items }
{
    if values.is_empty() {
        return Ok(());
    }
    put_null_bitmap(values, out)?;
    make_room(1, out)?;
    out.push_reserved(1);
    put_types(values, out)?;
    put_cells(values, apart, out)
}

/// Appends the execution with these values of the statement with this id.
///
/// The values are at most 65535. The cells of byte strings are left out where these are sent
/// `apart`, as long data before it.
///
/// Promise: the bytes are those of the execution that
/// [`build`](ComStmtExecuteRequestBuilder::build) makes, in one pass over the values
/// (`execution_of`).
///
/// # Errors
/// - `AllocError` for want of memory.
///
/// MySQL: Client/Server Protocol, "COM_STMT_EXECUTE".
#[inline(always)]
pub fn put_execution<V: HasValue>(
    id: u32,
    values: &[V],
    apart: bool,
    out: &mut Vec<u8>,
) -> Result<(), AllocError>
    requires { length values.now ≤ 65535 }
    ensures { Appends result out.old.items out.new.items (execute_command id (map V.value values.now) apart) }
{
    let len = out.len();
    out.extend_from_slice(&head(id))?;
    // What no reference leads to: the length isn't written back for each byte.
    let mut whole = replace(out, Vec::new(*out.allocator()));
    let put = put_parameters(values, apart, &mut whole);
    *out = whole;
    if put.is_err() {
        out.truncate(len);
    }
    put
}

// What an execution carries of its values: nothing where there are none.
#[derive(Clone, Copy)]
struct Parameters<'a> {
    bitmap: &'a [u8],
    values: &'a [&'a Value],
    apart: bool,
}

impl<'a> MySerialize for Parameters<'a> {
    ghost written = { λ p. parameters p.bitmap.now (map (λ value. value.now) p.values.now) p.apart };

    fn serialize(&self, buf: &mut Vec<u8>) -> Result<(), AllocError> {
        if self.values.is_empty() {
            return Ok(());
        }
        let cells = Cells {
            values: self.values,
            apart: self.apart,
        };
        in_order!(Plain(self.bitmap), [1u8], Types(self.values), cells).serialize(buf)
    }
}

#[tactic(auto, unfolding(crate::specs::Executions::execution))]
impl<'a> MySerialize for ComStmtExecuteRequest<'a> {
    ghost written = { λ r. execution (execution_view r) };

    fn serialize(&self, buf: &mut Vec<u8>) -> Result<(), AllocError> {
        let id: RawInt<LeU32> = RawInt::new(self.stmt_id);
        let parameters = Parameters {
            bitmap: &self.bitmap,
            values: &self.params,
            apart: self.as_long_data,
        };
        in_order!(
            ComStmtExecuteHeader::new(),
            id,
            [0u8],
            IterationCount::new(),
            parameters
        )
        .serialize(buf)
    }
}
