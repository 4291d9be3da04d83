//! Columns with MariaDB's extended metadata, and those that COM_FIELD_LIST lists, with their defaults.
//!
//!     let read: ExtendedColumn = ParseBuf(payload).parse(alloc, capabilities.mariadb)?;
//!     let is_json = read.format() == Some(b"json".as_slice());

ghost use Rattle.std.specs.Prelude.{◌≡◌, ◌++◌, [], IfOk, None, Some, is_some, option_map, true};
ghost use Rattle.mysql_fields.specs.Laws.{unsized};
ghost use Rattle.mysql_fields.specs.Wire.{Appends, TellsPart};
ghost use Rattle.mysql_columns.specs.ExtendedLaws.{extended_column_at-back, listed_column_at-back};
ghost use Rattle.mysql_columns.specs.Extended.{ExtendedDefinition, IsExtended, IsListed, ListedDefinition, default_at};
ghost use Rattle.mysql_columns.specs.Extended.{default_bytes, extended_column, extended_column_at, extended_metadata};
ghost use Rattle.mysql_columns.specs.Extended.{first_of_kind, listed_column, listed_column_at, metadata_at};
ghost use Rattle.mysql_columns.specs.Extended.{metadata_bytes, metadata_value, metadata_value_at, value_of_kind};
ghost use Rattle.mysql_columns.specs.Views.{column_view, extended_view, listed_view, text_view};

use crate::column::{Column, copied, fixed_fields_of};
use crate::headers::ColumnDefinitionCatalog;
use crate::names::names_of;
use bitflags::Flags;
use mysql_buf::{BufMutExt, ParseBuf};
use mysql_const::MariadbCapabilities;
use mysql_fields::{
    LenEnc, MyDeserialize, MySerialize, ParseExt, RawBytes, RawInt, Readable, ReadsBack, WireError,
    in_order, read_lenenc_text,
};
use std::alloc::{AllocError, Global};

/// The kind of a value that names the column's type, as `point` or `uuid`.
const TYPE_NAME: u8 = 0;

/// The kind of a value that names the format of the column's texts, as `json`.
const FORMAT: u8 = 1;

/// A column, and the metadata that a MariaDB sends behind its names. They stand there where both
/// sides have EXTENDED_METADATA; where they haven't, it is the column alone.
///
/// The metadata are kept as their bytes. What they say is looked at by
/// [`ExtendedColumn::type_name`] and [`ExtendedColumn::format`]. Metadata that aren't laid out as
/// values are no error, as long as their own length is right.
///
/// Promise: `serialize` appends exactly the packet's bytes. Reading answers exactly what the layout
/// gives of any bytes, or its refusal. A refusal leaves all bytes (`extended_column`,
/// `extended_column_at`).
///
/// MariaDB: Client/Server Protocol, "Result Set Packets", 'Column Definition Packet'.
#[derive(Debug, PartialEq, Eq, Drop)]
pub struct ExtendedColumn {
    column: Column,
    metadata: Option<Vec<u8>>,
}

// A copy of bytes, where there are any.
fn copy_of(alloc: Global, bytes: Option<&[u8]>) -> Result<Option<Vec<u8>>, AllocError>
    ensures { IfOk result (λ copy. text_view copy ≡ option_map (λ some. some.now) bytes.entry) }
{
    match bytes {
        Some(bytes) => Ok(Some(Vec::from_slice(alloc, bytes)?)),
        None => Ok(None),
    }
}

// The bytes, where there are any.
fn lent(bytes: &Option<Vec<u8>>) -> Option<&[u8]>
    ensures { option_map (λ bytes. bytes.now) result ≡ text_view bytes.now }
{
    match bytes {
        Some(bytes) => Some(bytes.as_slice()),
        None => None,
    }
}

// The value of the metadata that stands first: its kind and its text.
fn next_value<'a>(buf: &mut ParseBuf<'a>) -> Result<(u8, &'a [u8]), WireError>
    ensures { TellsPart (λ value. (value.0, value.1.now)) buf.new.0.now result (metadata_value_at buf.old.0.now) }
{
    let Some(kind) = buf.checked_eat_u8() else {
        return Err(WireError::UnexpectedEof);
    };
    let text = read_lenenc_text(buf)?;
    Ok((kind, text))
}

// The text of the first value of a kind.
fn find_value(kind: u8, metadata: &[u8]) -> Option<&[u8]>
    ensures { option_map (λ text. text.now) result ≡ value_of_kind kind (Some metadata.now) }
{
    let mut rest = ParseBuf(metadata);
    for _passed in 0..metadata.len() {
        let Ok((own, text)) = next_value(&mut rest) else {
            return None;
        };
        if own == kind {
            return Some(text);
        }
    }
    None
}

impl ExtendedColumn {
    /// The column without metadata, as it is written where EXTENDED_METADATA isn't in force.
    pub fn new(column: Column) -> ExtendedColumn
        ensures { extended_view result ≡ record { column = column_view column; metadata = None } }
    {
        ExtendedColumn {
            column,
            metadata: None,
        }
    }

    /// The column with these bytes as its metadata. There are none of them for a column of which
    /// nothing is told where EXTENDED_METADATA is in force.
    pub fn with_metadata(mut self, metadata: Vec<u8>) -> ExtendedColumn
        ensures { extended_view result ≡ record (extended_view self) { metadata = Some metadata.items } }
    {
        self.metadata = Some(metadata);
        self
    }

    /// Appends to metadata the value that names the column's type, as `point` or `uuid`.
    ///
    /// # Errors
    /// - `AllocError` for want of memory. The metadata are then as they were.
    ///
    /// MariaDB: Client/Server Protocol, "Result Set Packets", 'Column Definition Packet'.
    pub fn put_type_name(name: &[u8], metadata: &mut Vec<u8>) -> Result<(), AllocError>
        ensures { Appends result metadata.old.items metadata.new.items (metadata_value 0 name.now) }
    {
        put_value(TYPE_NAME, name, metadata)
    }

    /// Appends to metadata the value that names the format of the column's texts, as `json`.
    ///
    /// # Errors
    /// - `AllocError` for want of memory. The metadata are then as they were.
    ///
    /// MariaDB: Client/Server Protocol, "Result Set Packets", 'Column Definition Packet'.
    pub fn put_format(format: &[u8], metadata: &mut Vec<u8>) -> Result<(), AllocError>
        ensures { Appends result metadata.old.items metadata.new.items (metadata_value 1 format.now) }
    {
        put_value(FORMAT, format, metadata)
    }

    /// The column itself.
    pub fn column(&self) -> &Column
        ensures { column_view result.now ≡ (extended_view self.now).column }
    {
        &self.column
    }

    /// The column itself, without its metadata.
    pub fn into_column(self) -> Column
        ensures { column_view result ≡ (extended_view self).column }
    {
        self.column
    }

    /// The bytes of its metadata, where the packet has some, which may be empty.
    pub fn metadata_ref(&self) -> Option<&[u8]>
        ensures { option_map (λ bytes. bytes.now) result ≡ (extended_view self.now).metadata }
    {
        lent(&self.metadata)
    }

    // The text of the first value of a kind.
    fn value_of(&self, kind: u8) -> Option<&[u8]>
        ensures { option_map (λ text. text.now) result ≡ value_of_kind kind (extended_view self.now).metadata }
    {
        match &self.metadata {
            Some(metadata) => find_value(kind, metadata.as_slice()),
            None => None,
        }
    }

    /// The name of its type, as `point`, `inet6` or `uuid`, where the metadata tell one.
    ///
    /// Promise: it is the text of the first value of the kind 0, of those that stand whole one after
    /// another (`value_of_kind`).
    ///
    /// MariaDB: Client/Server Protocol, "Result Set Packets", 'Column Definition Packet'.
    pub fn type_name(&self) -> Option<&[u8]>
        ensures { option_map (λ text. text.now) result ≡ value_of_kind 0 (extended_view self.now).metadata }
    {
        self.value_of(TYPE_NAME)
    }

    /// The format of its texts, as `json`, where the metadata tell one.
    ///
    /// Promise: it is the text of the first value of the kind 1, of those that stand whole one after
    /// another (`value_of_kind`).
    ///
    /// MariaDB: Client/Server Protocol, "Result Set Packets", 'Column Definition Packet'.
    pub fn format(&self) -> Option<&[u8]>
        ensures { option_map (λ text. text.now) result ≡ value_of_kind 1 (extended_view self.now).metadata }
    {
        self.value_of(FORMAT)
    }

    /// A copy.
    ///
    /// # Errors
    /// - `AllocError` for want of memory.
    pub fn clone(&self, alloc: Global) -> Result<ExtendedColumn, AllocError>
        ensures { IfOk result (λ copy. extended_view copy ≡ extended_view self.now) }
    {
        Ok(ExtendedColumn {
            column: self.column.clone(alloc)?,
            metadata: copy_of(alloc, lent(&self.metadata))?,
        })
    }
}

// Appends a value of metadata.
fn put_value(kind: u8, text: &[u8], metadata: &mut Vec<u8>) -> Result<(), AllocError>
    ensures { Appends result metadata.old.items metadata.new.items (metadata_value kind text.now) }
{
    let kind: RawInt<u8> = RawInt::new(kind);
    let text: RawBytes<LenEnc> = RawBytes::from(text);
    in_order!(kind, text).serialize(metadata)
}

// The metadata of a packet.
#[derive(Clone, Copy)]
struct Metadata<'a>(Option<&'a [u8]>);

impl<'a> MySerialize for Metadata<'a> {
    ghost written = { λ m. metadata_bytes (option_map (λ bytes. bytes.now) m.0) };

    fn serialize(&self, buf: &mut Vec<u8>) -> Result<(), AllocError> {
        match self.0 {
            Some(metadata) => buf.put_lenenc_str(metadata),
            None => Ok(()),
        }
    }
}

// The default of a listed column.
#[derive(Clone, Copy)]
struct DefaultValue<'a>(Option<&'a [u8]>);

impl<'a> MySerialize for DefaultValue<'a> {
    ghost written = { λ d. default_bytes (option_map (λ bytes. bytes.now) d.0) };

    fn serialize(&self, buf: &mut Vec<u8>) -> Result<(), AllocError> {
        match self.0 {
            Some(text) => buf.put_lenenc_str(text),
            None => {
                buf.push(0xfb)?;
                Ok(())
            }
        }
    }
}

#[tactic(auto, unfolding(crate::specs::Extended::extended_column))]
impl MySerialize for ExtendedColumn {
    ghost written = { λ p. extended_column (extended_view p) };

    fn serialize(&self, buf: &mut Vec<u8>) -> Result<(), AllocError> {
        let metadata = Metadata(lent(&self.metadata));
        in_order!(
            ColumnDefinitionCatalog::new(),
            self.column.names(),
            metadata,
            self.column.fields(),
        )
        .serialize(buf)
    }
}

// EXTENDED_METADATA is in force.
fn has_metadata(capabilities: MariadbCapabilities) -> bool
    ensures { result ≡ extended_metadata capabilities.0 }
{
    capabilities.contains(MariadbCapabilities::MARIADB_CLIENT_EXTENDED_METADATA)
}

// The metadata, where the packet has some.
fn metadata_of<'a>(in_force: bool, buf: &mut ParseBuf<'a>) -> Result<Option<&'a [u8]>, WireError>
    ensures { TellsPart (option_map (λ bytes. bytes.now)) buf.new.0.now result (metadata_at in_force buf.old.0.now) }
{
    if !in_force {
        return Ok(None);
    }
    Ok(Some(read_lenenc_text(buf)?))
}

impl Readable for ExtendedColumn {
    type Ctx = MariadbCapabilities;

    ghost AsksForMemory = { true };

    ghost Shown = { ExtendedDefinition };

    ghost shown = { extended_view };

    ghost kept = { extended_view };

    ghost read_at = { λ capabilities bytes. extended_column_at capabilities.0 bytes };

    ghost IsReadBack = { λ capabilities p _. IsExtended capabilities.0 (extended_view p) };

    ghost sized = { λ capabilities. unsized (extended_column_at capabilities.0) };

    fn size() -> Option<usize>
        ensures { result ≡ None }
    {
        None
    }
}

impl ReadsBack for ExtendedColumn {
    ghost reads_back = { λ capabilities p rest. extended_column_at-back capabilities.0 (extended_view p) rest };
}

/// Reads a column by MariaDB's capabilities in force; names and metadata are copied. Refused as
/// [`Column`] is, and by UnexpectedEof too where the metadata are cut off.
///
/// MariaDB: Client/Server Protocol, "Result Set Packets", 'Column Definition Packet'.
#[tactic(auto, unfolding(crate::specs::Extended::extended_column_at))]
impl<'de> MyDeserialize<'de> for ExtendedColumn {
    // Column Definition Packet:
    //   string<lenenc>  catalog, schema, table alias, table, column alias, column
    //   string<lenenc>  extended metadata, with MARIADB_CLIENT_EXTENDED_METADATA:
    //                     int<1>          0 type, 1 format
    //                     string<lenenc>  its name
    //   int<lenenc>     length of fixed fields, always 0c, and these, as in `Column`
    fn deserialize(
        alloc: Global,
        capabilities: MariadbCapabilities,
        buf: &mut ParseBuf<'de>,
    ) -> Result<ExtendedColumn, WireError> {
        let mut rest = *buf;
        let _catalog: ColumnDefinitionCatalog = rest.parse(alloc, ())?;
        let names = names_of(&mut rest)?;
        let metadata = metadata_of(has_metadata(capabilities), &mut rest)?;
        let mut block = rest.parse::<ParseBuf>(alloc, 13)?;
        let fields = fixed_fields_of(alloc, &mut block)?;
        let column = copied(alloc, &names, fields)?;
        let metadata = copy_of(alloc, metadata)?;
        *buf = rest;
        Ok(ExtendedColumn { column, metadata })
    }
}

/// A column of an answer to COM_FIELD_LIST, with its default where it has one.
///
/// Promise: `serialize` appends exactly the packet's bytes. Reading answers exactly what the layout
/// gives of any bytes, or its refusal. A refusal leaves all bytes (`listed_column`,
/// `listed_column_at`).
///
/// MySQL: Client/Server Protocol, "COM_FIELD_LIST" and "Column Definition".
#[derive(Debug, PartialEq, Eq, Drop)]
pub struct ListedColumn {
    column: ExtendedColumn,
    default_value: Option<Vec<u8>>,
}

impl ListedColumn {
    /// The column with this default, or with none.
    pub fn new(column: ExtendedColumn, default_value: Option<Vec<u8>>) -> ListedColumn
        ensures { listed_view result ≡
            record { column = extended_view column; default_value = text_view default_value } }
    {
        ListedColumn {
            column,
            default_value,
        }
    }

    /// The column.
    pub fn column(&self) -> &ExtendedColumn
        ensures { extended_view result.now ≡ (listed_view self.now).column }
    {
        &self.column
    }

    /// The column, without its default.
    pub fn into_column(self) -> ExtendedColumn
        ensures { extended_view result ≡ (listed_view self).column }
    {
        self.column
    }

    /// The text of its default, where it has one.
    pub fn default_ref(&self) -> Option<&[u8]>
        ensures { option_map (λ bytes. bytes.now) result ≡ (listed_view self.now).default_value }
    {
        lent(&self.default_value)
    }

    /// A copy.
    ///
    /// # Errors
    /// - `AllocError` for want of memory.
    pub fn clone(&self, alloc: Global) -> Result<ListedColumn, AllocError>
        ensures { IfOk result (λ copy. listed_view copy ≡ listed_view self.now) }
    {
        Ok(ListedColumn {
            column: self.column.clone(alloc)?,
            default_value: copy_of(alloc, lent(&self.default_value))?,
        })
    }
}

#[tactic(auto, unfolding(crate::specs::Extended::listed_column))]
impl MySerialize for ListedColumn {
    ghost written = { λ p. listed_column (listed_view p) };

    fn serialize(&self, buf: &mut Vec<u8>) -> Result<(), AllocError> {
        let default_value = DefaultValue(lent(&self.default_value));
        in_order!(self.column, default_value).serialize(buf)
    }
}

// The default that stands to the end, or first.
fn default_of<'a>(buf: &mut ParseBuf<'a>) -> Result<Option<&'a [u8]>, WireError>
    ensures { TellsPart (option_map (λ bytes. bytes.now)) buf.new.0.now result (default_at buf.old.0.now) }
{
    let Some(first) = buf.0.first() else {
        return Ok(None);
    };
    if *first == 0xfb {
        *buf = ParseBuf(&buf.0[1..]);
        return Ok(None);
    }
    Ok(Some(read_lenenc_text(buf)?))
}

impl Readable for ListedColumn {
    type Ctx = MariadbCapabilities;

    ghost AsksForMemory = { true };

    ghost Shown = { ListedDefinition };

    ghost shown = { listed_view };

    ghost kept = { listed_view };

    ghost read_at = { λ capabilities bytes. listed_column_at capabilities.0 bytes };

    ghost IsReadBack = { λ capabilities p _. IsListed capabilities.0 (listed_view p) };

    ghost sized = { λ capabilities. unsized (listed_column_at capabilities.0) };

    fn size() -> Option<usize>
        ensures { result ≡ None }
    {
        None
    }
}

impl ReadsBack for ListedColumn {
    ghost reads_back = { λ capabilities p rest. listed_column_at-back capabilities.0 (listed_view p) rest };
}

/// Reads a column of an answer to COM_FIELD_LIST. There is no default where `fb` stands in its place,
/// or nothing. Refused as [`ExtendedColumn`] is, and then by UnexpectedEof where the default is cut
/// off.
///
/// MySQL: Client/Server Protocol, "COM_FIELD_LIST" and "Column Definition".
#[tactic(auto, unfolding(crate::specs::Extended::listed_column_at))]
impl<'de> MyDeserialize<'de> for ListedColumn {
    // A column packet, and behind it:
    //   string<lenenc>  default value, or fb, or nothing
    fn deserialize(
        alloc: Global,
        capabilities: MariadbCapabilities,
        buf: &mut ParseBuf<'de>,
    ) -> Result<ListedColumn, WireError> {
        let mut rest = *buf;
        let column: ExtendedColumn = rest.parse(alloc, capabilities)?;
        let default_value = default_of(&mut rest)?;
        let default_value = copy_of(alloc, default_value)?;
        *buf = rest;
        Ok(ListedColumn {
            column,
            default_value,
        })
    }
}
