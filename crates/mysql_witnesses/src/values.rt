//! Values: their texts, their cells, conversions, and parameter sets that are made of lists.

ghost use Rattle.std.specs.Prelude.{◌≡◌, IfSome};
ghost use Rattle.mysql_witnesses.specs.Values.{CommentsAreNotParted, EachPlaceHasItsValue};
ghost use Rattle.mysql_witnesses.specs.Values.{EqualNamesAreRefused, OtherBytesAreBinary, TextsAreNoNumbers};
ghost use Rattle.mysql_witnesses.specs.Values.{LargeNumbersStayPositive, LongValuesAreRefused};
ghost use Rattle.mysql_witnesses.specs.Values.{NoBytesStandInQuotes, QuotesAreDoubledWithoutEscapes};
ghost use Rattle.mysql_witnesses.specs.Values.{QuotesAreEscapedElse, ZeroTimesAreBoundWithoutSign};

use mysql_cells::Value;
use mysql_convert::from_value_opt;
use std::time::Duration;

/// A quote is doubled for a server in NO_BACKSLASH_ESCAPES, and else escaped by a backslash.
#[tactic(auto, unfolding(bitflags::proofs::OnLiterals::bitflags_on_literals))]
pub fn quotes_are_written_by_the_mode()
    ensures without_escapes { QuotesAreDoubledWithoutEscapes }
    ensures by_default { QuotesAreEscapedElse }
{}

/// No bytes are written in quotes, in hexadecimal spelling too.
pub fn no_bytes_stand_in_quotes()
    ensures { NoBytesStandInQuotes }
{}

/// In hexadecimal spelling an introducer tells what bytes are.
#[tactic(auto, unfolding(bitflags::proofs::OnLiterals::bitflags_on_literals))]
pub fn introducers_tell_what_bytes_are()
    ensures texts { TextsAreNoNumbers }
    ensures others { OtherBytesAreBinary }
{}

/// `*/` is left as it is, beside any bytes.
#[tactic(auto, unfolding(bitflags::proofs::OnLiterals::bitflags_on_literals))]
pub fn comments_are_not_parted()
    ensures { CommentsAreNotParted }
{}

/// A negative time of all zeros is bound without its sign.
pub fn zero_times_are_bound_without_sign()
    ensures { ZeroTimesAreBoundWithoutSign }
{}

/// A number of 2^63 or more in a column without a sign stays positive.
#[tactic(auto, unfolding(mysql_cells::specs::Cells::cell_at, mysql_buf::specs::Reading::first))]
pub fn large_numbers_stay_positive()
    ensures { LargeNumbersStayPositive }
{}

/// A value that holds no duration comes back as it was given.
///
/// Excluded: NULL instead.
pub fn a_refused_value_comes_back(value: Value) -> Option<Value>
    ensures { IfSome result (λ back. back ≡ value) }
{
    match from_value_opt::<Duration>(value) {
        Ok(_) => None,
        Err(refused) => Some(refused.0),
    }
}

/// A list of 1 and 2 makes a set of 1 and 2.
#[tactic(auto, using(crate::proofs::AboutValues::each_place_has_its_value))]
pub fn each_place_has_its_value()
    ensures { EachPlaceHasItsValue }
{}

/// Of two equal names no set is made, and of a value that is too long.
pub fn sets_leave_nothing_out()
    ensures names { EqualNamesAreRefused }
    ensures values { LongValuesAreRefused }
{}
