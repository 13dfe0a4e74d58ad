ghost use Rattle.std.specs.Prelude.{◌≡◌, ◌-◌, ◌≤◌, ◌↔◌, ◌++◌, length, take, replicate, IsSome, IfSome, IsTrue};
ghost use Rattle.hm_base.specs.Padded.{max_value_len, IsPadded};

use std::marker::Model;

/// The greatest length of a value, in bytes.
pub const MAX_VALUE_LEN: usize = 64;

/// The bytes that an object holds, at most [`MAX_VALUE_LEN`] of them. Contracts see the list of the bytes.
#[derive(Clone, Copy, Debug, PartialEq, Eq)]
pub struct Value {
    bytes: [u8; MAX_VALUE_LEN],
    len: u8,
}

impl Model for Value {
    ghost use Rattle.std.specs.Prelude.{List, ℕ, take};
    ghost use Rattle.hm_base.specs.Padded.{IsPadded, unpadded, unpadded_ok};

    ghost Value = { List ℕ };

    ghost view = { λ v. take v.len v.bytes };

    ghost invariant = { λ v. IsPadded v.len v.bytes };

    ghost inverse = { unpadded };

    ghost inverse_ok = { unpadded_ok };
}

impl Value {
    /// The value of these bytes. None exactly above [`MAX_VALUE_LEN`] bytes.
    pub fn from_slice(bytes: &[u8]) -> Option<Value>
        ensures fits { IsSome result ↔ (length bytes.now ≤ max_value_len) }
        ensures same { IfSome result (λ v. v ≡ bytes.now) }
    {
        if bytes.len() > MAX_VALUE_LEN {
            return None;
        }
        Some(Value {
            bytes: padded(bytes),
            len: bytes.len() as u8,
        })
    }

    /// The value of the first bytes, behind which there are zeros.
    #[inline(always)]
    pub(crate) fn of_padded(bytes: [u8; MAX_VALUE_LEN], len: u8) -> Value
        requires { IsPadded len bytes }
        ensures { result ≡ take len bytes }
    {
        Value { bytes, len }
    }

    /// The bytes, with zeros behind them, so that a writer can copy a constant number of bytes.
    #[inline(always)]
    pub fn padded(&self) -> &[u8; MAX_VALUE_LEN]
        ensures { result.now ≡ self.now ++ replicate (max_value_len - length self.now) 0 }
    {
        &self.bytes
    }

    /// How many bytes there are, at most [`MAX_VALUE_LEN`].
    #[inline(always)]
    pub fn len(&self) -> u8
        ensures { result ≡ length self.now }
    {
        self.len
    }

    /// The bytes.
    #[inline(always)]
    pub fn as_slice(&self) -> &[u8]
        ensures same { result.now ≡ self.now }
        ensures fits { length result.now ≤ max_value_len }
    {
        &self.bytes[..self.len as usize]
    }
}

/// The bytes, with zeros behind them.
#[inline(always)]
fn padded(bytes: &[u8]) -> [u8; MAX_VALUE_LEN]
    requires { length bytes.now ≤ max_value_len }
    ensures { result ≡ bytes.now ++ replicate (max_value_len - length bytes.now) 0 }
{
    let mut padded = [0; MAX_VALUE_LEN];
    padded[..bytes.len()].copy_from_slice(bytes);
    padded
}

/// Whether two values have the same bytes.
pub fn is_same_value(first: &Value, second: &Value) -> bool
    ensures { IsTrue result ↔ (first.now ≡ second.now) }
{
    first.as_slice() == second.as_slice()
}
