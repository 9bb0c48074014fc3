//! The bytes before a separator, a text without the spaces around it, and the number that digits write.
ghost use Rattle.std.specs.Prelude.{◌≡◌, ◌+◌, ◌≤◌, length, if◌then◌else◌, Some, None};
ghost use Rattle.std.specs.List.{prefix_len, suffix_len};
ghost use Rattle.tokens.specs.Text.{before, space, trimmed, all_digits, decimal_after, numeral};

// That a count is at most the number of bytes is said of each count, which is a number and no value of a type of its own.

/// How many bytes stand before the first `separator`: all of them where there is none.
pub(crate) fn bytes_before(bytes: &[u8], separator: u8) -> usize
    ensures value { result ≡ before separator bytes.now }
    ensures bound { result ≤ length bytes.now }
{
    bytes.iter().take_while(|byte| **byte != separator).count()
}

/// How many spaces stand in front.
fn leading_spaces(bytes: &[u8]) -> usize
    ensures value { result ≡ prefix_len space bytes.now }
    ensures bound { result ≤ length bytes.now }
{
    bytes.iter().take_while(|byte| **byte == b' ').count()
}

/// How many spaces stand at the end.
fn trailing_spaces(bytes: &[u8]) -> usize
    ensures value { result ≡ suffix_len space bytes.now }
    ensures bound { result ≤ length bytes.now }
{
    bytes.iter().rev().take_while(|byte| **byte == b' ').count()
}

/// The text without the spaces around it.
pub(crate) fn trim(bytes: &[u8]) -> &[u8]
    ensures { result.now ≡ trimmed bytes.now }
{
    let text = &bytes[leading_spaces(bytes)..];
    &text[..text.len() - trailing_spaces(text)]
}

/// A number has at most so many digits.
const MOST_DIGITS: usize = 10;

/// The number that at most ten digits write, and None where one of them is no digit.
fn decimal(text: &[u8]) -> Option<u64>
    requires { length text.now ≤ MOST_DIGITS }
    ensures { result ≡ (if all_digits text.now then Some (decimal_after 0 text.now) else None) }
{
    let mut sum = 0u64;
    for digit in text {
        if !digit.is_ascii_digit() {
            return None;
        }
        sum = sum * 10 + u64::from(*digit - b'0');
    }
    Some(sum)
}

/// The number that one to ten digits write, and None for any other text.
pub fn number(text: &[u8]) -> Option<u64>
    ensures { result ≡ numeral text.now }
{
    if text.is_empty() || text.len() > MOST_DIGITS {
        None
    } else {
        decimal(text)
    }
}
