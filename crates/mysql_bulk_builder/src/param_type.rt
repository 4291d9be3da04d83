//! The type of a column of parameters.

ghost use Rattle.std.specs.Prelude.{◌≡◌, Some, true};
ghost use Rattle.mysql_field_constants.specs.Flags.{are_named};
ghost use Rattle.mysql_const.specs.ExecuteFlags.{execute_param_flags};
ghost use Rattle.mysql_fields.specs.Wire.{TellsPart};
ghost use Rattle.mysql_bulk_builder.specs.Bulk.{merged, param_type_bytes, type_of_value};
ghost use Rattle.mysql_bulk_builder.specs.Reading.{param_flags_named, param_type_at, param_type_fields_at};
ghost use Rattle.mysql_bulk_builder.specs.ReadingLaws.{param_type_at-back, param_type_at-sized};
ghost use Rattle.mysql_bulk_builder.specs.declared.param_type.StmtBulkExecuteParamType.{
  StmtBulkExecuteParamType as ParamType,
};

use bitflags::Flags;
use mysql_buf::ParseBuf;
use mysql_cells::Value;
use mysql_const::{ColumnType, StmtExecuteParamFlags};
use mysql_field_constants::Const;
use mysql_fields::{MyDeserialize, MySerialize, ParseExt, Readable, ReadsBack, WireError};
use std::alloc::{AllocError, Global};

/// The type of a column of parameters, and whether its whole numbers have no sign.
///
/// MariaDB: Client/Server Protocol, "COM_STMT_BULK_EXECUTE".
#[derive(Clone, Copy, Debug, PartialEq, Eq)]
pub struct StmtBulkExecuteParamType {
    column_type: ColumnType,
    flags: StmtExecuteParamFlags,
}

impl StmtBulkExecuteParamType {
    /// This type with these flags.
    pub fn new(column_type: ColumnType, flags: StmtExecuteParamFlags) -> StmtBulkExecuteParamType
        ensures { result ≡ record { column_type = column_type; flags = flags } }
    {
        StmtBulkExecuteParamType { column_type, flags }
    }

    /// The type that a value is sent by.
    pub fn from_value(value: &Value) -> StmtBulkExecuteParamType
        ensures { result ≡ type_of_value value.now }
    {
        let flags = if value.is_unsigned() {
            StmtExecuteParamFlags::UNSIGNED
        } else {
            StmtExecuteParamFlags(0)
        };
        StmtBulkExecuteParamType {
            column_type: value.column_type(),
            flags,
        }
    }

    /// The type.
    pub fn column_type(&self) -> ColumnType
        ensures { result ≡ self.now.column_type }
    {
        self.column_type
    }

    /// Whether its whole numbers have no sign.
    pub fn flags(&self) -> StmtExecuteParamFlags
        ensures { result ≡ self.now.flags }
    {
        self.flags
    }

    // The type of the values so far and of one more: the first one's that isn't NULL, without a
    // sign where one of its type is.
    pub(crate) fn merged(self, value: &Value) -> StmtBulkExecuteParamType
        ensures { result ≡ merged self value.now }
    {
        let own = StmtBulkExecuteParamType::from_value(value);
        let number = u8::from(self.column_type);
        if number == 6 || value.is_unsigned() && u8::from(own.column_type) == number {
            own
        } else {
            self
        }
    }
}

impl MySerialize for StmtBulkExecuteParamType {
    ghost written = { param_type_bytes };

    fn serialize(&self, buf: &mut Vec<u8>) -> Result<(), AllocError> {
        buf.extend_from_slice(&[u8::from(self.column_type), u8::from(self.flags)])
    }
}

impl Readable for StmtBulkExecuteParamType {
    type Ctx = ();

    ghost SIZE = { Some 2 };

    ghost Shown = { ParamType };

    ghost shown = { λ t. t };

    ghost kept = { λ t. t };

    ghost read_at = { λ _ bytes. param_type_at bytes };

    ghost IsReadBack = { λ _ t _. are_named execute_param_flags t.flags.0 ≡ true };

    ghost sized = { λ _. param_type_at-sized };

    fn size() -> Option<usize> {
        Some(2)
    }
}

impl ReadsBack for StmtBulkExecuteParamType {
    ghost reads_back = { λ _ t rest h. param_type_at-back t rest h };
}

// The flags of these bits, where they all have names.
fn param_flags(bits: u8) -> Option<StmtExecuteParamFlags>
    ensures { result ≡ param_flags_named bits }
{
    StmtExecuteParamFlags::from_bits(bits)
}

#[tactic(auto, unfolding(crate::specs::Reading::param_type_fields_at))]
fn fields_from(alloc: Global, rest: &mut ParseBuf) -> Result<StmtBulkExecuteParamType, WireError>
    ensures { TellsPart (λ t. t) rest.new.0.now result (param_type_fields_at rest.old.0.now) }
{
    let column_type: Const<ColumnType, u8> = rest.parse(alloc, ())?;
    let bits = rest.checked_eat_u8().ok_or(WireError::UnexpectedEof)?;
    match param_flags(bits) {
        Some(flags) => Ok(StmtBulkExecuteParamType::new(column_type.get(), flags)),
        None => Err(WireError::UnknownValue),
    }
}

/// Reads a type. Refused by UnexpectedEof where there are fewer than two bytes, then by
/// UnknownValue for a type or flags without a name.
///
/// MariaDB: Client/Server Protocol, "COM_STMT_BULK_EXECUTE".
#[tactic(auto, unfolding(crate::specs::Reading::param_type_at))]
impl<'de> MyDeserialize<'de> for StmtBulkExecuteParamType {
    // A parameter's type:
    //   int<1>  field type
    //   int<1>  parameter flag: 0x80 for a number without a sign
    fn deserialize(
        alloc: Global,
        _ctx: (),
        buf: &mut ParseBuf<'de>,
    ) -> Result<StmtBulkExecuteParamType, WireError> {
        let mut rest = *buf;
        let found = fields_from(alloc, &mut rest)?;
        *buf = rest;
        Ok(found)
    }
}
