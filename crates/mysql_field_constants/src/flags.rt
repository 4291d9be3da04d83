//! The sets of flags that are read with named bits alone, as values by their bits.

ghost use Rattle.std.specs.Prelude.{◌≡◌, true};
ghost use Rattle.mysql_const.specs.BinlogDumpFlags.{binlog_dump_flags};
ghost use Rattle.mysql_field_constants.specs.FlagLaws.{flags_named-back};
ghost use Rattle.mysql_field_constants.specs.Flags.{all_status_flags, are_named, binlog_dump_named, status_named};

use crate::consts::ConstValue;
use bitflags::Flags;
use mysql_const::{BinlogDumpFlags, StatusFlags};

// The bits that have a name at MySQL, and MariaDB's bit of ANSI_QUOTES, which has none in `StatusFlags`.
const KNOWN_STATUS: u16 = 0xfffb;

// MariaDB's bit of ANSI_QUOTES is kept; [`MariadbStatusFlags::of`] tells it.
impl ConstValue for StatusFlags {
    type Number = u16;

    ghost number = { λ flags. flags.0 };

    ghost named = { status_named };

    ghost IsNamed = { λ flags. are_named all_status_flags flags.0 ≡ true };

    ghost names_back = { λ flags. flags_named-back all_status_flags (λ b. record { 0 = b }) flags.0 };

    fn to_number(self) -> u16 {
        self.0
    }

    #[tactic(auto, unfolding(bitflags::proofs::OnLiterals::bitflags_on_literals))]
    fn from_number(n: u16) -> Option<StatusFlags> {
        if n & KNOWN_STATUS == n {
            Some(StatusFlags(n))
        } else {
            None
        }
    }
}

impl ConstValue for BinlogDumpFlags {
    type Number = u16;

    ghost number = { λ flags. flags.0 };

    ghost named = { binlog_dump_named };

    ghost IsNamed = { λ flags. are_named binlog_dump_flags flags.0 ≡ true };

    ghost names_back = { λ flags. flags_named-back binlog_dump_flags (λ b. record { 0 = b }) flags.0 };

    fn to_number(self) -> u16 {
        self.0
    }

    fn from_number(n: u16) -> Option<BinlogDumpFlags> {
        BinlogDumpFlags::from_bits(n)
    }
}
