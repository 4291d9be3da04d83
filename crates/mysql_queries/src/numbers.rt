//! Numbers in decimal digits.

ghost use Rattle.mysql_queries.specs.LiteralRuns.{EndsBefore, IsDigitRun, begins_hex};
ghost use Rattle.mysql_queries.specs.Literals.{IsNumber, digits_value, is_digit};
ghost use Rattle.std.specs.List.{AllByRecursion};
ghost use Rattle.std.specs.Prelude.{
  ◌+◌,
  ◌++◌,
  ◌<◌,
  ◌^◌,
  ◌≡◌,
  ◌≤◌,
  IfNone,
  IfSome,
  List,
  drop,
  false,
  length,
  slice_range,
  take,
  true,
  ℕ,
  ℤ,
};

pub fn digit(b: u8) -> bool
    ensures { result ≡ is_digit b }
{
    b'0' <= b && b <= b'9'
}

/// Where the digits from a place on end.
fn digits_end(text: &[u8], from: usize) -> usize
    requires { from ≤ length text.now }
    ensures order { from ≤ result }
    ensures in_range { result ≤ length text.now }
    ensures each { AllByRecursion (λ b. is_digit b ≡ true) (slice_range text.now from result) }
    ensures ends { EndsBefore is_digit (drop result text.now) }
{
    let mut end = from;
    while end < text.len() && digit(text[end]) {
        end += 1;
    }
    end
}

/// The number of a row of digits; None where it is no u64.
fn number_of(digits: &[u8]) -> Option<u64>
    requires { AllByRecursion (λ b. is_digit b ≡ true) digits.now }
    ensures value { IfSome result (λ n. n ≡ digits_value digits.now) }
    ensures large { IfNone result (2 ^ 64 ≤ digits_value digits.now) }
{
    let mut n: u64 = 0;
    for b in digits {
        let Some(tens) = n.checked_mul(10) else {
            return None;
        };
        let Some(next) = tens.checked_add((*b - b'0') as u64) else {
            return None;
        };
        n = next;
    }
    Some(n)
}

/// Reads the number at the front of a text, and answers how many bytes it takes.
///
/// None where the digits there are none in range.
pub fn read_number(text: &[u8]) -> Option<(i128, usize)>
    requires { begins_hex text.now ≡ false }
    ensures in_range { IfSome result (λ found. found.1 ≤ length text.now) }
    ensures run { IfSome result (λ found. IsDigitRun (take found.1 text.now) (drop found.1 text.now)) }
    ensures number { IfSome result (λ found. IsNumber (take found.1 text.now) found.0) }
    ensures none { IfNone result ((run rest : List ℕ) (z : ℤ) → text.now ≡ run ++ rest →
        IsDigitRun run rest → IsNumber run z → ⊥) }
{
    if !text.is_empty() && text[0] == b'-' {
        let end = digits_end(text, 1);
        if end == 1 {
            return None;
        }
        let Some(n) = number_of(&text[1..end]) else {
            return None;
        };
        if n > 1 << 63 {
            None
        } else {
            Some((-(n as i128), end))
        }
    } else {
        let end = digits_end(text, 0);
        if end == 0 {
            return None;
        }
        let Some(n) = number_of(&text[..end]) else {
            return None;
        };
        Some((n as i128, end))
    }
}
