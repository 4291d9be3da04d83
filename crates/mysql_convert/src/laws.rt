//! Laws of conversions. Functions without a result do nothing: their contracts are the laws.

ghost use Rattle.mysql_convert.specs.Durations.{TextsHoldDurations};

/// Bytes hold a duration exactly where they are the text of one.
///
/// Such a text has hours of two digits, or of three below 900, and minutes and seconds of two
/// digits below 60. Colons are between them, and a decimal fraction of a second of at most six
/// digits may follow. MySQL Reference Manual, "The TIME Type".
pub fn texts_hold_durations()
    ensures { TextsHoldDurations }
{}
