//! Numbers in decimal at the front of some bytes.

ghost use Rattle.std.specs.Prelude.{◌≡◌, ◌<◌, ◌≤◌, ℕ, List, ◌++◌};
ghost use Rattle.pg_base.specs.Atoi.{AreDigits, BeginsWithDigit, decimal_value, IsUpTo, IsDigitsUpTo, Atoi};

/// The number that begins the bytes: an optional sign and the digits after it, as many as there
/// are. What stands after them is ignored. Nothing where there is no digit, where the number
/// passes the greatest `u32`, or where a minus stands before a number above 0.
pub fn atoi_u32(bytes: &[u8]) -> Option<u32>
    ensures { Atoi u32.MAX bytes.now result }
{
    Some(atoi_up_to(bytes, u64::from(u32::MAX))? as u32)
}

/// As [`atoi_u32`], up to the greatest `u64`.
pub fn atoi_u64(bytes: &[u8]) -> Option<u64>
    ensures { Atoi u64.MAX bytes.now result }
{
    atoi_up_to(bytes, u64::MAX)
}

/// As [`atoi_u32`], up to the greatest `usize`.
pub fn atoi_usize(bytes: &[u8]) -> Option<usize>
    ensures { Atoi usize.MAX bytes.now result }
{
    Some(atoi_up_to(bytes, usize::MAX as u64)? as usize)
}

fn atoi_up_to(bytes: &[u8], top: u64) -> Option<u64>
    ensures { Atoi top bytes.now result }
{
    let (first, after) = bytes.split_first()?;
    match first {
        b'+' => digits_up_to(after, top),
        // After a minus 0 is the greatest.
        b'-' => digits_up_to(after, 0),
        _ => digits_up_to(bytes, top),
    }
}

fn digits_up_to(bytes: &[u8], top: u64) -> Option<u64>
    ensures { IsDigitsUpTo top bytes.now result }
{
    let digits = front_digits(bytes);
    if digits.is_empty() {
        return None;
    }
    value_up_to(digits, top)
}

// The digits at the front, as many as there are.
fn front_digits(bytes: &[u8]) -> &[u8]
    ensures digits { AreDigits result.now }
    ensures parts { (rest : List ℕ) × (bytes.now ≡ result.now ++ rest) × ¬ (BeginsWithDigit rest) }
{
    for (end, byte) in bytes.iter().enumerate() {
        if !byte.is_ascii_digit() {
            return &bytes[..end];
        }
    }
    bytes
}

// The value of digits, where it is at most `top`.
fn value_up_to(digits: &[u8], top: u64) -> Option<u64>
    requires { AreDigits digits.now }
    ensures { IsUpTo top (decimal_value digits.now) result }
{
    let mut value = 0u64;
    for digit in digits {
        value = value
            .checked_mul(10)?
            .checked_add(u64::from(*digit - b'0'))?;
        if value > top {
            return None;
        }
    }
    Some(value)
}
