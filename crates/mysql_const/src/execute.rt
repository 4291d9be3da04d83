//! Flags of an execution of a prepared statement: its cursor, whether it sends its parameters'
//! types, and what stands beside each type.
//!
//!     let cursor = u8::from(CursorType::CURSOR_TYPE_READ_ONLY);
//!     let beside_type = u8::from(StmtExecuteParamFlags::UNSIGNED);
//!     let bound = StmtExecuteParamsFlags::try_from(byte)?;
//!     let sends_types = bound == StmtExecuteParamsFlags::NEW_PARAMS_BOUND;

ghost use Rattle.std.specs.Prelude.{⊤, ◌≡◌};
ghost use Rattle.mysql_const.specs.Tables.{ReadsFlags};
ghost use Rattle.mysql_const.specs.CursorTypes.{cursor_types};
ghost use Rattle.mysql_const.specs.ExecuteFlags.{execute_params_flags, execute_param_flags};

use crate::unknown::write_unknown_flags;
use bitflags::{Flag, Flags, bitflag_items};
use std::error::Error;
use std::fmt;
use std::fmt::{Display, Formatter, Write};

/// Which cursor an execution asks for. Bits 3 to 7 have no name.
///
/// MySQL: Client/Server Protocol, "COM_STMT_EXECUTE" (enum_cursor_type).
#[derive(Clone, Copy, PartialEq, Eq, Hash, Debug)]
pub struct CursorType(pub u8);

bitflag_items! {
    impl CursorType: u8 {
        const CURSOR_TYPE_NO_CURSOR = 0;
        const CURSOR_TYPE_READ_ONLY = 1;
        const CURSOR_TYPE_FOR_UPDATE = 2;
        const CURSOR_TYPE_SCROLLABLE = 4;
    }
}

impl Flags for CursorType {
    type Bits = u8;

    ghost exact = { ⊤ };

    ghost table = { cursor_types };

    ghost set_of = { λ flags. flags.0 };

    fn flags<'a>() -> &'a [Flag<CursorType>] {
        CursorType::FLAGS
    }

    fn bits(&self) -> u8 {
        self.0
    }

    fn from_bits_retain(bits: u8) -> CursorType {
        CursorType(bits)
    }
}

/// No flag.
impl Default for CursorType {
    ghost is_default = { λ flags. flags.0 ≡ 0 };

    fn default() -> CursorType {
        CursorType::empty()
    }
}

/// Bits, of which some are no flag of [`CursorType`].
#[derive(Clone, Copy, PartialEq, Eq, Debug)]
pub struct UnknownCursorType(pub u8);

impl Error for UnknownCursorType {}

impl Display for UnknownCursorType {
    fn fmt<W: Write>(&self, f: &mut Formatter<W>) -> fmt::Result {
        write_unknown_flags(f, "CursorType", u32::from(self.0))
    }
}

/// The bits of some [`CursorType`].
impl From<CursorType> for u8 {
    ghost from_gives = { λ flags bits. bits ≡ flags.0 };

    fn from(flags: CursorType) -> u8 {
        flags.bits()
    }
}

/// The [`CursorType`] of these bits. Bits of which some have no name are refused, and the refusal carries them all.
impl TryFrom<u8> for CursorType {
    type Error = UnknownCursorType;

    ghost try_from_gives = { λ bits answer. ReadsFlags cursor_types (λ flags. flags.0)
        (λ unknown. unknown.0) bits answer };

    fn try_from(bits: u8) -> Result<CursorType, UnknownCursorType> {
        match CursorType::from_bits(bits) {
            Some(flags) => Ok(flags),
            None => Err(UnknownCursorType(bits)),
        }
    }
}

/// Whether an execution sends its parameters' types. Bits 1 to 7 have no name.
///
/// MySQL: Client/Server Protocol, "COM_STMT_EXECUTE" (new_params_bind_flag).
#[derive(Clone, Copy, PartialEq, Eq, Hash, Debug)]
pub struct StmtExecuteParamsFlags(pub u8);

bitflag_items! {
    impl StmtExecuteParamsFlags: u8 {
        const NEW_PARAMS_BOUND = 1;
    }
}

impl Flags for StmtExecuteParamsFlags {
    type Bits = u8;

    ghost exact = { ⊤ };

    ghost table = { execute_params_flags };

    ghost set_of = { λ flags. flags.0 };

    fn flags<'a>() -> &'a [Flag<StmtExecuteParamsFlags>] {
        StmtExecuteParamsFlags::FLAGS
    }

    fn bits(&self) -> u8 {
        self.0
    }

    fn from_bits_retain(bits: u8) -> StmtExecuteParamsFlags {
        StmtExecuteParamsFlags(bits)
    }
}

/// No flag.
impl Default for StmtExecuteParamsFlags {
    ghost is_default = { λ flags. flags.0 ≡ 0 };

    fn default() -> StmtExecuteParamsFlags {
        StmtExecuteParamsFlags::empty()
    }
}

/// Bits, of which some are no flag of [`StmtExecuteParamsFlags`].
#[derive(Clone, Copy, PartialEq, Eq, Debug)]
pub struct UnknownStmtExecuteParamsFlags(pub u8);

impl Error for UnknownStmtExecuteParamsFlags {}

impl Display for UnknownStmtExecuteParamsFlags {
    fn fmt<W: Write>(&self, f: &mut Formatter<W>) -> fmt::Result {
        write_unknown_flags(f, "StmtExecuteParamsFlags", u32::from(self.0))
    }
}

/// The bits of some [`StmtExecuteParamsFlags`].
impl From<StmtExecuteParamsFlags> for u8 {
    ghost from_gives = { λ flags bits. bits ≡ flags.0 };

    fn from(flags: StmtExecuteParamsFlags) -> u8 {
        flags.bits()
    }
}

/// The [`StmtExecuteParamsFlags`] of these bits. Bits of which some have no name are refused, and
/// the refusal carries them all.
impl TryFrom<u8> for StmtExecuteParamsFlags {
    type Error = UnknownStmtExecuteParamsFlags;

    ghost try_from_gives = { λ bits answer. ReadsFlags execute_params_flags (λ flags. flags.0)
        (λ unknown. unknown.0) bits answer };

    fn try_from(bits: u8) -> Result<StmtExecuteParamsFlags, UnknownStmtExecuteParamsFlags> {
        match StmtExecuteParamsFlags::from_bits(bits) {
            Some(flags) => Ok(flags),
            None => Err(UnknownStmtExecuteParamsFlags(bits)),
        }
    }
}

/// What stands beside the type of one parameter. Bits 0 to 6 have no name.
///
/// MySQL: Client/Server Protocol, "COM_STMT_EXECUTE" (parameter_types).
#[derive(Clone, Copy, PartialEq, Eq, Hash, Debug)]
pub struct StmtExecuteParamFlags(pub u8);

bitflag_items! {
    impl StmtExecuteParamFlags: u8 {
        const UNSIGNED = 0x80;
    }
}

impl Flags for StmtExecuteParamFlags {
    type Bits = u8;

    ghost exact = { ⊤ };

    ghost table = { execute_param_flags };

    ghost set_of = { λ flags. flags.0 };

    fn flags<'a>() -> &'a [Flag<StmtExecuteParamFlags>] {
        StmtExecuteParamFlags::FLAGS
    }

    fn bits(&self) -> u8 {
        self.0
    }

    fn from_bits_retain(bits: u8) -> StmtExecuteParamFlags {
        StmtExecuteParamFlags(bits)
    }
}

/// No flag.
impl Default for StmtExecuteParamFlags {
    ghost is_default = { λ flags. flags.0 ≡ 0 };

    fn default() -> StmtExecuteParamFlags {
        StmtExecuteParamFlags::empty()
    }
}

/// Bits, of which some are no flag of [`StmtExecuteParamFlags`].
#[derive(Clone, Copy, PartialEq, Eq, Debug)]
pub struct UnknownStmtExecuteParamFlags(pub u8);

impl Error for UnknownStmtExecuteParamFlags {}

impl Display for UnknownStmtExecuteParamFlags {
    fn fmt<W: Write>(&self, f: &mut Formatter<W>) -> fmt::Result {
        write_unknown_flags(f, "StmtExecuteParamFlags", u32::from(self.0))
    }
}

/// The bits of some [`StmtExecuteParamFlags`].
impl From<StmtExecuteParamFlags> for u8 {
    ghost from_gives = { λ flags bits. bits ≡ flags.0 };

    fn from(flags: StmtExecuteParamFlags) -> u8 {
        flags.bits()
    }
}

/// The [`StmtExecuteParamFlags`] of these bits. Bits of which some have no name are refused, and
/// the refusal carries them all.
impl TryFrom<u8> for StmtExecuteParamFlags {
    type Error = UnknownStmtExecuteParamFlags;

    ghost try_from_gives = { λ bits answer. ReadsFlags execute_param_flags (λ flags. flags.0)
        (λ unknown. unknown.0) bits answer };

    fn try_from(bits: u8) -> Result<StmtExecuteParamFlags, UnknownStmtExecuteParamFlags> {
        match StmtExecuteParamFlags::from_bits(bits) {
            Some(flags) => Ok(flags),
            None => Err(UnknownStmtExecuteParamFlags(bits)),
        }
    }
}
