//! Versions of servers, as texts.

ghost use Rattle.std.specs.Prelude.{◌≡◌, ◌<◌, ◌≤◌, ℕ, length, slice_index, true};
ghost use Rattle.std.specs.List.{prefix_len};
ghost use Rattle.std.specs.Option.{option_map};
ghost use Rattle.std.specs.Str.Parse.{digits_value};
ghost use Rattle.mysql_handshake.specs.VersionReading.{after_dot, digits_len, mariadb_version, marked_version};
ghost use Rattle.mysql_handshake.specs.VersionReading.{number_after_dot, number_at, version_at, version_of};
ghost use Rattle.mysql_handshake.specs.Versions.{is_digit};

/// What stands before the version of a MariaDB server from 10 on, for clients that take a first
/// number of one digit alone.
const MARIADB_PREFIX: &[u8] = b"5.5.5-";

/// What stands behind the version of a MariaDB server.
const MARIADB_MARK: &[u8] = b"-MariaDB";

// Whether a byte is a decimal digit.
fn is_digit(c: u8) -> bool
    ensures { result ≡ is_digit c }
{
    matches!(c, b'0'..=b'9')
}

// The place of the first byte that is no digit, or the length.
fn first_other(text: &[u8]) -> usize
    ensures { result ≡ prefix_len is_digit text.now }
{
    for (i, c) in text.iter().enumerate() {
        if !is_digit(*c) {
            return i;
        }
    }
    text.len()
}

// How many digits a text begins with, as far as `most`.
#[tactic(auto, unfolding(crate::specs::VersionReading::digits_len))]
fn digits_len(text: &[u8], most: usize) -> usize
    ensures { result ≡ digits_len most text.now }
{
    most.min(first_other(text))
}

// The number that at most three digits write.
fn value_of(digits: &[u8]) -> u16
    requires few { length digits.now ≤ 3 }
    requires digits { (k : ℕ) → k < length digits.now → is_digit (slice_index digits.now k) ≡ true }
    ensures { result ≡ digits_value 10 digits.now }
{
    let mut value: u16 = 0;
    for digit in digits {
        value = value * 10 + u16::from(*digit - b'0');
    }
    value
}

// The number that a text begins with, of at most `most` digits, and the text behind it.
#[tactic(auto, unfolding(crate::specs::VersionReading::number_at))]
fn number_at(text: &[u8], most: usize) -> Option<(u16, &[u8])>
    requires { most ≤ 3 }
    ensures { option_map (λ found. (found.0, found.1.now)) result ≡ number_at most text.now }
{
    let len = digits_len(text, most);
    if len == 0 {
        return None;
    }
    let (digits, rest) = text.split_at(len);
    Some((value_of(digits), rest))
}

// The text behind a dot.
fn after_dot(text: &[u8]) -> Option<&[u8]>
    ensures { option_map (λ rest. rest.now) result ≡ after_dot text.now }
{
    match text {
        [b'.', rest @ ..] => Some(rest),
        _ => None,
    }
}

// The number behind a dot, of at most `most` digits, and the text behind it.
fn number_after_dot(text: &[u8], most: usize) -> Option<(u16, &[u8])>
    requires { most ≤ 3 }
    ensures { option_map (λ found. (found.0, found.1.now)) result ≡ number_after_dot most text.now }
{
    number_at(after_dot(text)?, most)
}

// Three numbers with dots between, and the text behind them.
#[tactic(auto, unfolding(crate::specs::VersionReading::version_at))]
fn version_at(text: &[u8]) -> Option<((u16, u16, u16), &[u8])>
    ensures { option_map (λ found. (found.0, found.1.now)) result ≡ version_at text.now }
{
    let (major, rest) = number_at(text, 2)?;
    let (minor, rest) = number_after_dot(rest, 2)?;
    let (patch, rest) = number_after_dot(rest, 3)?;
    Some(((major, minor, patch), rest))
}

/// The version that a text begins with: three numbers of at most two, two and three digits, with
/// dots between.
pub(crate) fn version_of(text: &[u8]) -> Option<(u16, u16, u16)>
    ensures { result ≡ version_of text.now }
{
    let (version, _) = version_at(text)?;
    Some(version)
}

// The version that a text begins with, where MariaDB's name is behind it.
#[tactic(auto, unfolding(crate::specs::VersionReading::marked_version))]
fn marked_version(text: &[u8]) -> Option<(u16, u16, u16)>
    ensures { result ≡ marked_version text.now }
{
    let (version, rest) = version_at(text)?;
    if rest.starts_with(MARIADB_MARK) {
        Some(version)
    } else {
        None
    }
}

/// The version of a MariaDB server that a text begins with, before which `5.5.5-` may stand.
#[tactic(auto, unfolding(crate::specs::VersionReading::mariadb_version))]
pub(crate) fn mariadb_version(text: &[u8]) -> Option<(u16, u16, u16)>
    ensures { result ≡ mariadb_version text.now }
{
    if text.starts_with(MARIADB_PREFIX) {
        if let Some(version) = marked_version(&text[MARIADB_PREFIX.len()..]) {
            return Some(version);
        }
    }
    marked_version(text)
}
