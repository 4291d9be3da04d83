//! How byte strings are spelled where values are written as literals, and read again.
//!
//! In quotes they are short and can be read, and are safe by the mode and the character set that
//! they are written for. In hexadecimal they are the same in each mode and each character set. An
//! introducer makes texts of them: `0x31` alone is the number 49 where a number is wanted.

/// How byte strings are spelled as literals.
///
/// (MySQL Reference Manual, "String Literals", "Hexadecimal Literals", "Character Set Introducers".)
#[derive(Clone, Copy, Debug, PartialEq, Eq, Hash)]
pub enum Spelling {
    /// UTF-8 between single quotes, by the mode of the server, and other bytes as `0x` and digits.
    ///
    /// So bytes that aren't UTF-8 are a number where a server wants one.
    Quoted,
    /// `_utf8mb4 0x` and two digits for each byte of UTF-8, `_binary 0x` and digits for other bytes,
    /// and `''` for no bytes.
    ///
    /// A server takes them for a text, or for a string of bytes, also where it wants a number.
    Hexadecimal,
}
