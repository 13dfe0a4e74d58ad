//! Bytes as lower-case hexadecimal digits.
ghost use Rattle.std.specs.Prelude.{◌≡◌, ◌≢◌, ℕ, ◌<◌, ◌≤◌, List, [], ◌∷◌, ◌++◌, length, slice_index, OnOk, OnErr, IfSome, IfNone};
ghost use Rattle.hex.specs.Hex.{IsBytes, encode_lower, lower_digits};
ghost use Rattle.hm_base.specs.Padded.{max_value_len};
ghost use Rattle.hm_base.specs.Lists.{IsPrefix};

use crate::buffer::Text;
use crate::memory::NoMemory;
use crate::value::{MAX_VALUE_LEN, Value};

/// The two digits of each byte, one pair after the other.
static BYTE_PAIRS: [u8; 512] =
    *b"000102030405060708090a0b0c0d0e0f101112131415161718191a1b1c1d1e1f202122232425262728292a2b2c2d2e2f303132333435363738393a3b3c3d3e3f404142434445464748494a4b4c4d4e4f505152535455565758595a5b5c5d5e5f606162636465666768696a6b6c6d6e6f707172737475767778797a7b7c7d7e7f808182838485868788898a8b8c8d8e8f909192939495969798999a9b9c9d9e9fa0a1a2a3a4a5a6a7a8a9aaabacadaeafb0b1b2b3b4b5b6b7b8b9babbbcbdbebfc0c1c2c3c4c5c6c7c8c9cacbcccdcecfd0d1d2d3d4d5d6d7d8d9dadbdcdddedfe0e1e2e3e4e5e6e7e8e9eaebecedeeeff0f1f2f3f4f5f6f7f8f9fafbfcfdfeff";

/// The digits of a byte.
#[inline(always)]
fn byte_digits(byte: u8) -> [u8; 2]
    ensures { result ≡ encode_lower (byte ∷ []) }
{
    let at = 2 * byte as usize;
    [BYTE_PAIRS[at], BYTE_PAIRS[at + 1]]
}

/// The digit of a number below 16.
#[inline(always)]
fn digit(number: u8) -> u8
    requires { number < 16 }
    ensures { result ≡ slice_index lower_digits number }
{
    let letters = if number > 9 { b'a' - b'9' - 1 } else { 0 };
    b'0' + number + letters
}

/// The digits of sixteen bytes, by a loop of constant length that takes several bytes at a time once it is compiled.
#[inline(always)]
fn sixteen_digits(bytes: &[u8; 16]) -> [u8; 32]
    ensures { result ≡ encode_lower bytes.now }
{
    let mut digits = [0; 32];
    for i in 0..16 {
        digits[2 * i] = digit(bytes[i] >> 4);
        digits[2 * i + 1] = digit(bytes[i] & 15);
    }
    digits
}

/// Appends the digits of the bytes. After want of memory `out` may have the first ones of them.
pub(crate) fn push_digits(bytes: &[u8], out: &mut Text) -> Result<(), NoMemory>
    ensures ok { OnOk result (out.new.items ≡ out.old.items ++ encode_lower bytes.now) }
    ensures err { OnErr result (IsPrefix out.old.items out.new.items) }
{
    let mut from = 0;
    'sixteens: while bytes.len() - from >= 16 {
        let mut chunk = [0; 16];
        chunk.copy_from_slice(&bytes[from..from + 16]);
        out.put(&sixteen_digits(&chunk))?;
        from += 16;
    }
    'rest: while from < bytes.len() {
        out.put(&byte_digits(bytes[from]))?;
        from += 1;
    }
    Ok(())
}

/// The number of a digit; above 15 for any byte that is none, upper-case letters too.
#[inline(always)]
#[tactic(auto, using(crate::proofs::HexDigits::digit_at))]
fn number_of(digit: u8) -> u8
    ensures is { result < 16 → slice_index lower_digits result ≡ digit }
    ensures all { (n : ℕ) → n < 16 → digit ≡ slice_index lower_digits n → result ≡ n }
{
    match digit {
        b'0'..=b'9' => digit - b'0',
        b'a'..=b'f' => digit - b'a' + 10,
        _ => 255,
    }
}

/// The value whose bytes a text spells in digits. None exactly for any other text.
pub(crate) fn read_digits(text: &[u8]) -> Option<Value>
    ensures some { IfSome result (λ v. text.now ≡ encode_lower v) }
    ensures lawful { IfSome result (λ v. IsBytes v × (length v ≤ max_value_len)) }
    ensures none { IfNone result ((v : List ℕ) → IsBytes v → length v ≤ max_value_len → text.now ≢ encode_lower v) }
{
    if text.len() % 2 != 0 {
        return None;
    }
    let count = text.len() / 2;
    if count > MAX_VALUE_LEN {
        return None;
    }
    let mut bytes = [0; MAX_VALUE_LEN];
    let mut worst = 0;
    for i in 0..count {
        let high = number_of(text[2 * i]);
        let low = number_of(text[2 * i + 1]);
        worst |= high | low;
        bytes[i] = high % 16 * 16 + low % 16;
    }
    if worst > 15 {
        return None;
    }
    Some(Value::of_padded(bytes, count as u8))
}
