//! Columns of result sets and of prepared statements: a type, names and flags, read and written.
//!
//!     let column: Column = ParseBuf(payload).parse(alloc, ())?;
//!     let name = column.name_str(alloc)?;
//!     let made = Column::new(alloc, ColumnType::MYSQL_TYPE_LONG).with_name(b"id")?;

ghost use Rattle.std.specs.Prelude.{◌≡◌, [], IfOk, IsOkUnless, None, true};
ghost use Rattle.std.specs.Cow.{cow_str_bytes};
ghost use Rattle.mysql_fields.specs.Texts.{lossy_text};
ghost use Rattle.mysql_fields.specs.Laws.{unsized};
ghost use Rattle.mysql_fields.specs.Wire.{TellsPart};
ghost use Rattle.mysql_fields.specs.declared.error.WireError.TheVariants as wire;
ghost use Rattle.mysql_columns.specs.ColumnLaws.{column_at-back};
ghost use Rattle.mysql_columns.specs.Columns.{ColumnDefinition, IsColumn, column, column_at, column_fields};
ghost use Rattle.mysql_columns.specs.Columns.{column_fields_at, column_with, fields_in};
ghost use Rattle.mysql_columns.specs.Columns.{names_in};
ghost use Rattle.mysql_columns.specs.Views.{column_view, fields_view, names_view};

use crate::headers::{ColumnDefinitionCatalog, FixedLengthFieldsLen};
use crate::names::{Names, SharedNames, names_of};
use bitflags::Flags;
use mysql_buf::ParseBuf;
use mysql_const::{ColumnFlags, ColumnType};
use mysql_field_constants::{Const, Skip};
use mysql_fields::{
    LeU16, LeU32, MyDeserialize, MySerialize, ParseExt, RawInt, Readable, ReadsBack, WireError,
    in_order, lossy_text,
};
use std::alloc::{AllocError, Global};
use std::borrow::CowStr;
use std::fmt;

/// A column of a result set, or a parameter or a column of a prepared statement.
///
/// Its names stand in one piece of memory. [`Column::clone`] shares it and copies no name.
///
/// Promise: `serialize` appends exactly the column's bytes. Reading answers exactly what the layout
/// gives of any bytes, or its refusal. A refusal leaves all bytes (`column`, `column_at`).
///
/// MySQL: Client/Server Protocol, "Column Definition".
#[derive(PartialEq, Eq, Drop)]
pub struct Column {
    names: SharedNames,
    character_set: u16,
    column_length: u32,
    column_type: ColumnType,
    flags: ColumnFlags,
    decimals: u8,
}

impl Column {
    /// A column of this type, with empty names, no flag and zeros.
    pub fn new(alloc: Global, column_type: ColumnType) -> Column
        ensures { column_view result ≡ record {
          schema = [];
          table = [];
          org_table = [];
          name = [];
          org_name = [];
          character_set = 0;
          column_length = 0;
          column_type = column_type;
          flags = record { 0 = 0 };
          decimals = 0;
        } }
    {
        Column {
            names: SharedNames::new(alloc),
            character_set: 0,
            column_length: 0,
            column_type,
            flags: ColumnFlags(0),
            decimals: 0,
        }
    }

    /// The column with this name of its schema, which is copied.
    ///
    /// # Errors
    /// - `AllocError` for want of memory.
    pub fn with_schema(mut self, schema: &[u8]) -> Result<Column, AllocError>
        ensures { IfOk result (λ column. column_view column ≡ record (column_view self) { schema = schema.now }) }
    {
        let names = Names {
            schema,
            ..self.names()
        };
        self.names = self.names.replaced(&names)?;
        Ok(self)
    }

    /// The column with this name of its table in the query, which is copied.
    ///
    /// # Errors
    /// - `AllocError` for want of memory.
    pub fn with_table(mut self, table: &[u8]) -> Result<Column, AllocError>
        ensures { IfOk result (λ column. column_view column ≡ record (column_view self) { table = table.now }) }
    {
        let names = Names {
            table,
            ..self.names()
        };
        self.names = self.names.replaced(&names)?;
        Ok(self)
    }

    /// The column with this name of its table in the schema, which is copied.
    ///
    /// # Errors
    /// - `AllocError` for want of memory.
    pub fn with_org_table(mut self, org_table: &[u8]) -> Result<Column, AllocError>
        ensures { IfOk result (λ column. column_view column ≡ record (column_view self) { org_table = org_table.now }) }
    {
        let names = Names {
            org_table,
            ..self.names()
        };
        self.names = self.names.replaced(&names)?;
        Ok(self)
    }

    /// The column with this name in the query, which is copied.
    ///
    /// # Errors
    /// - `AllocError` for want of memory.
    pub fn with_name(mut self, name: &[u8]) -> Result<Column, AllocError>
        ensures { IfOk result (λ column. column_view column ≡ record (column_view self) { name = name.now }) }
    {
        let names = Names {
            name,
            ..self.names()
        };
        self.names = self.names.replaced(&names)?;
        Ok(self)
    }

    /// The column with this name in the table, which is copied.
    ///
    /// # Errors
    /// - `AllocError` for want of memory.
    pub fn with_org_name(mut self, org_name: &[u8]) -> Result<Column, AllocError>
        ensures { IfOk result (λ column. column_view column ≡ record (column_view self) { org_name = org_name.now }) }
    {
        let names = Names {
            org_name,
            ..self.names()
        };
        self.names = self.names.replaced(&names)?;
        Ok(self)
    }

    /// The column with these flags.
    pub fn with_flags(mut self, flags: ColumnFlags) -> Column
        ensures { column_view result ≡ record (column_view self) { flags = flags } }
    {
        self.flags = flags;
        self
    }

    /// The column with this length.
    pub fn with_column_length(mut self, column_length: u32) -> Column
        ensures { column_view result ≡ record (column_view self) { column_length = column_length } }
    {
        self.column_length = column_length;
        self
    }

    /// The column with this number of its character set's collation.
    pub fn with_character_set(mut self, character_set: u16) -> Column
        ensures { column_view result ≡ record (column_view self) { character_set = character_set } }
    {
        self.character_set = character_set;
        self
    }

    /// The column with so many digits behind the decimal point.
    pub fn with_decimals(mut self, decimals: u8) -> Column
        ensures { column_view result ≡ record (column_view self) { decimals = decimals } }
    {
        self.decimals = decimals;
        self
    }

    /// The name of the column's schema, as bytes.
    pub fn schema_ref(&self) -> &[u8]
        ensures { result.now ≡ (column_view self.now).schema }
    {
        self.names().schema
    }

    /// The name of the column's schema, as text, where bytes that aren't UTF-8 are replaced.
    ///
    /// # Errors
    /// - `Memory`.
    pub fn schema_str(&self, alloc: Global) -> Result<CowStr<'_>, WireError>
        ensures memory { IsOkUnless result wire.Memory }
        ensures value { IfOk result (λ text. cow_str_bytes text ≡
            lossy_text (column_view self.now).schema) }
    {
        lossy_text(alloc, self.schema_ref())
    }

    /// The name of its table in the query, as bytes.
    pub fn table_ref(&self) -> &[u8]
        ensures { result.now ≡ (column_view self.now).table }
    {
        self.names().table
    }

    /// The name of its table in the query, as text, where bytes that aren't UTF-8 are replaced.
    ///
    /// # Errors
    /// - `Memory`.
    pub fn table_str(&self, alloc: Global) -> Result<CowStr<'_>, WireError>
        ensures memory { IsOkUnless result wire.Memory }
        ensures value { IfOk result (λ text. cow_str_bytes text ≡
            lossy_text (column_view self.now).table) }
    {
        lossy_text(alloc, self.table_ref())
    }

    /// The name of its table in the schema, as bytes.
    pub fn org_table_ref(&self) -> &[u8]
        ensures { result.now ≡ (column_view self.now).org_table }
    {
        self.names().org_table
    }

    /// The name of its table in the schema, as text, where bytes that aren't UTF-8 are replaced.
    ///
    /// # Errors
    /// - `Memory`.
    pub fn org_table_str(&self, alloc: Global) -> Result<CowStr<'_>, WireError>
        ensures memory { IsOkUnless result wire.Memory }
        ensures value { IfOk result (λ text. cow_str_bytes text ≡
            lossy_text (column_view self.now).org_table) }
    {
        lossy_text(alloc, self.org_table_ref())
    }

    /// Its name in the query, as bytes.
    pub fn name_ref(&self) -> &[u8]
        ensures { result.now ≡ (column_view self.now).name }
    {
        self.names().name
    }

    /// Its name in the query, as text, where bytes that aren't UTF-8 are replaced.
    ///
    /// # Errors
    /// - `Memory`.
    pub fn name_str(&self, alloc: Global) -> Result<CowStr<'_>, WireError>
        ensures memory { IsOkUnless result wire.Memory }
        ensures value { IfOk result (λ text. cow_str_bytes text ≡
            lossy_text (column_view self.now).name) }
    {
        lossy_text(alloc, self.name_ref())
    }

    /// Its name in the table, as bytes.
    pub fn org_name_ref(&self) -> &[u8]
        ensures { result.now ≡ (column_view self.now).org_name }
    {
        self.names().org_name
    }

    /// Its name in the table, as text, where bytes that aren't UTF-8 are replaced.
    ///
    /// # Errors
    /// - `Memory`.
    pub fn org_name_str(&self, alloc: Global) -> Result<CowStr<'_>, WireError>
        ensures memory { IsOkUnless result wire.Memory }
        ensures value { IfOk result (λ text. cow_str_bytes text ≡
            lossy_text (column_view self.now).org_name) }
    {
        lossy_text(alloc, self.org_name_ref())
    }

    /// The number of its character set's collation.
    pub fn character_set(&self) -> u16
        ensures { result ≡ (column_view self.now).character_set }
    {
        self.character_set
    }

    /// The most bytes or characters that its cells have.
    pub fn column_length(&self) -> u32
        ensures { result ≡ (column_view self.now).column_length }
    {
        self.column_length
    }

    /// Its type.
    pub fn column_type(&self) -> ColumnType
        ensures { result ≡ (column_view self.now).column_type }
    {
        self.column_type
    }

    /// Its flags.
    pub fn flags(&self) -> ColumnFlags
        ensures { result ≡ (column_view self.now).flags }
    {
        self.flags
    }

    /// How many digits stand behind the decimal point.
    pub fn decimals(&self) -> u8
        ensures { result ≡ (column_view self.now).decimals }
    {
        self.decimals
    }

    /// A copy, which shares the names.
    ///
    /// # Errors
    /// - `AllocError` for want of memory.
    pub fn clone(&self, alloc: Global) -> Result<Column, AllocError>
        ensures { IfOk result (λ copy. column_view copy ≡ column_view self.now) }
    {
        Ok(Column {
            names: self.names.share(alloc)?,
            character_set: self.character_set,
            column_length: self.column_length,
            column_type: self.column_type,
            flags: self.flags,
            decimals: self.decimals,
        })
    }

    // Its names.
    pub(crate) fn names(&self) -> Names<'_>
        ensures { names_view result ≡ names_in (column_view self.now) }
    {
        self.names.lent()
    }

    // Its fields of a fixed length.
    pub(crate) fn fields(&self) -> FixedFields
        ensures { fields_view result ≡ fields_in (column_view self.now) }
    {
        FixedFields {
            character_set: self.character_set,
            column_length: self.column_length,
            column_type: self.column_type,
            flags: self.flags,
            decimals: self.decimals,
        }
    }
}

impl fmt::Debug for Column {
    fn fmt<W: fmt::Write>(&self, f: &mut fmt::Formatter<W>) -> fmt::Result {
        let names = self.names();
        f.debug_struct("Column")
            .field("schema", &names.schema)
            .field("table", &names.table)
            .field("org_table", &names.org_table)
            .field("name", &names.name)
            .field("org_name", &names.org_name)
            .field("character_set", &self.character_set)
            .field("column_length", &self.column_length)
            .field("column_type", &self.column_type)
            .field("flags", &self.flags)
            .field("decimals", &self.decimals)
            .finish()
    }
}

// The fields of a column that have a fixed length.
#[derive(Clone, Copy)]
pub(crate) struct FixedFields {
    character_set: u16,
    column_length: u32,
    column_type: ColumnType,
    flags: ColumnFlags,
    decimals: u8,
}

#[tactic(auto, unfolding(crate::specs::Columns::column_fields))]
impl MySerialize for FixedFields {
    ghost written = { λ f. column_fields (fields_view f) };

    fn serialize(&self, buf: &mut Vec<u8>) -> Result<(), AllocError> {
        let length = FixedLengthFieldsLen::new();
        let character_set: RawInt<LeU16> = RawInt::new(self.character_set);
        let column_length: RawInt<LeU32> = RawInt::new(self.column_length);
        let column_type: Const<ColumnType, u8> = Const::new(self.column_type);
        let flags: RawInt<LeU16> = RawInt::new(self.flags.0);
        let decimals: RawInt<u8> = RawInt::new(self.decimals);
        let filler: Skip<2> = Skip;
        in_order!(
            length,
            character_set,
            column_length,
            column_type,
            flags,
            decimals,
            filler,
        )
        .serialize(buf)
    }
}

#[tactic(auto, unfolding(crate::specs::Columns::column_fields_at))]
pub(crate) fn fixed_fields_of(alloc: Global, block: &mut ParseBuf) -> Result<FixedFields, WireError>
    ensures { TellsPart fields_view block.new.0.now result (column_fields_at block.old.0.now) }
{
    let _length: FixedLengthFieldsLen = block.parse(alloc, ())?;
    let Some(character_set) = block.checked_eat_u16_le() else {
        return Err(WireError::UnexpectedEof);
    };
    let Some(column_length) = block.checked_eat_u32_le() else {
        return Err(WireError::UnexpectedEof);
    };
    let column_type = block.parse::<Const<ColumnType, u8>>(alloc, ())?;
    let Some(flags) = block.checked_eat_u16_le() else {
        return Err(WireError::UnexpectedEof);
    };
    let Some(decimals) = block.checked_eat_u8() else {
        return Err(WireError::UnexpectedEof);
    };
    Ok(FixedFields {
        character_set,
        column_length,
        column_type: column_type.0,
        flags: ColumnFlags::from_bits_retain(flags),
        decimals,
    })
}

// A column of copies of these names, and of these fields.
pub(crate) fn copied(
    alloc: Global,
    names: &Names,
    fields: FixedFields,
) -> Result<Column, AllocError>
    ensures { IfOk result (λ column. column_view column ≡ column_with (names_view names.now) (fields_view fields)) }
{
    Ok(Column {
        names: SharedNames::of(alloc, names)?,
        character_set: fields.character_set,
        column_length: fields.column_length,
        column_type: fields.column_type,
        flags: fields.flags,
        decimals: fields.decimals,
    })
}

#[tactic(auto, unfolding(crate::specs::Columns::column))]
impl MySerialize for Column {
    ghost written = { λ p. column (column_view p) };

    fn serialize(&self, buf: &mut Vec<u8>) -> Result<(), AllocError> {
        in_order!(ColumnDefinitionCatalog::new(), self.names(), self.fields()).serialize(buf)
    }
}

impl Readable for Column {
    type Ctx = ();

    ghost AsksForMemory = { true };

    ghost Shown = { ColumnDefinition };

    ghost shown = { column_view };

    ghost kept = { column_view };

    ghost read_at = { λ _ bytes. column_at bytes };

    ghost IsReadBack = { λ _ p _. IsColumn (column_view p) };

    ghost sized = { λ _. unsized column_at };

    fn size() -> Option<usize>
        ensures { result ≡ None }
    {
        None
    }
}

impl ReadsBack for Column {
    ghost reads_back = { λ _ p. column_at-back (column_view p) };
}

/// Reads a column, whose names are copied. Refused from the left by one of these, then by Memory.
/// UnexpectedEof is for one that is cut off. BadConstant is for another catalog than `def` or
/// another length of the fixed fields than 12. UnknownValue is for a type without a name.
///
/// MySQL: Client/Server Protocol, "Column Definition".
#[tactic(auto, unfolding(crate::specs::Columns::column_at))]
impl<'de> MyDeserialize<'de> for Column {
    // Protocol::ColumnDefinition41:
    //   string<lenenc>  catalog, always "def"
    //   string<lenenc>  schema
    //   string<lenenc>  table, its name in the query
    //   string<lenenc>  org_table
    //   string<lenenc>  name, that of the column in the query
    //   string<lenenc>  org_name
    //   int<lenenc>     length of fixed length fields, always 0c
    //   int<2>          character_set
    //   int<4>          column_length
    //   int<1>          type
    //   int<2>          flags
    //   int<1>          decimals
    //   int<2>          reserved
    fn deserialize(alloc: Global, _ctx: (), buf: &mut ParseBuf<'de>) -> Result<Column, WireError> {
        let mut rest = *buf;
        let _catalog: ColumnDefinitionCatalog = rest.parse(alloc, ())?;
        let names = names_of(&mut rest)?;
        let mut block = rest.parse::<ParseBuf>(alloc, 13)?;
        let fields = fixed_fields_of(alloc, &mut block)?;
        let column = copied(alloc, &names, fields)?;
        *buf = rest;
        Ok(column)
    }
}
