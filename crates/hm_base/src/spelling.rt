ghost use Rattle.std.specs.Prelude.{◌≡◌, ◌≢◌, ℕ, ◌/◌, ◌^◌, ◌<◌, ◌≤◌, IfSome, IfNone, IsTrue, ◌↔◌, List, decimal, length};
ghost use Rattle.hm_base.specs.Padded.{max_value_len};
ghost use Rattle.hm_base.specs.Spellings.{value_text};
ghost use Rattle.hex.specs.Hex.{IsBytes, encode_lower};

use crate::hexadecimal::read_digits;
use crate::value::Value;
use itoa::Buffer;
use std::str;

/// Whether a text spells the number.
fn is_spelled(number: u64, text: &str) -> bool
    ensures { IsTrue result ↔ (decimal number ≡ text.now) }
{
    let mut buffer = Buffer::new();
    buffer.format(number) == text
}

/// The number that a text spells.
fn number_in(text: &str) -> Option<u64>
    ensures some { IfSome result (λ n. text.now ≡ decimal n) }
    ensures none { IfNone result ((n : ℕ) → n < 2 ^ 64 → text.now ≢ decimal n) }
{
    match text.parse::<u64>() {
        Ok(number) => {
            if is_spelled(number, text) {
                Some(number)
            } else {
                None
            }
        }
        Err(_) => None,
    }
}

/// The number that bytes spell in decimal digits, with no sign and no leading zero but `0` itself. None exactly for any
/// other text, or a number above `u64`.
pub fn read_number(text: &[u8]) -> Option<u64>
    ensures some { IfSome result (λ n. text.now ≡ decimal n) }
    ensures none { IfNone result ((n : ℕ) → n < 2 ^ 64 → text.now ≢ decimal n) }
{
    match str::from_utf8(text) {
        Ok(text) => number_in(text),
        Err(_) => None,
    }
}

/// The value that a text spells: `empty` for no bytes, else 2 to 128 lower-case hexadecimal digits. None exactly for any other text.
pub fn read_value(text: &[u8]) -> Option<Value>
    ensures some { IfSome result (λ v. text.now ≡ value_text v) }
    ensures lawful { IfSome result (λ v. IsBytes v × (length v ≤ max_value_len)) }
    ensures none { IfNone result ((v : List ℕ) → IsBytes v → length v ≤ max_value_len → text.now ≢ value_text v) }
{
    if text == b"empty".as_slice() {
        return Value::from_slice(&[]);
    }
    if text.is_empty() {
        return None;
    }
    read_digits(text)
}
