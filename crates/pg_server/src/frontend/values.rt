//! The values of parameters.

ghost use Rattle.std.specs.Prelude.{◌≡◌, ◌==◌, ◌≤◌, length, option_copied};
ghost use Rattle.std.specs.Iterator.{YieldsFirstBy, item_count};
ghost use Rattle.pg_format.specs.Format.Lists.{counted};
ghost use Rattle.pg_format.specs.Format.Nullable.{value};
ghost use Rattle.pg_server.specs.Frontend.Message.{GivesAt};

use crate::frontend::error::FrontendFault;
use crate::frontend::offsets::{bytes_at, i32_at, u16_at};
use std::marker::Model;

// The length of a value that is NULL.
const NULL: i32 = -1;

/// Values of parameters in order, nothing for NULL.
///
/// In a contract it is the list of the values that are left.
#[derive(Drop)]
pub struct Values<'a> {
    // From the next value on.
    bytes: &'a [u8],
    left: usize,
}

impl<'a> Model for Values<'a> {
    ghost use Rattle.std.specs.Prelude.{ℕ, List, Option};
    ghost use Rattle.pg_server.specs.Frontend.Lists.{values_in, HoldsValues};

    ghost Value = { List (Option (List ℕ)) };

    ghost view = { λ values. values_in values.left values.bytes.now };

    ghost invariant = { λ values. HoldsValues values.left values.bytes.now };
}

impl<'a> Values<'a> {
    /// How many values are left.
    #[tactic(auto, using(crate::proofs::FrontendValuesLemmas::length_values_in))]
    pub fn len(&self) -> usize
        ensures { result ≡ length self.now }
    {
        self.left
    }

    /// Whether no values are left.
    pub fn is_empty(&self) -> bool
        ensures { result ≡ (length self.now == 0) }
    {
        self.len() == 0
    }
}

impl<'a> Iterator for Values<'a> {
    type Item = Option<&'a [u8]>;

    ghost next_gives = { YieldsFirstBy option_copied (λ values. values) };

    ghost remaining = { item_count (λ values. values) };

    fn next(&mut self) -> Option<Option<&'a [u8]>> {
        if self.left == 0 {
            return None;
        }
        let Ok((value, end)) = value_at(self.bytes, 0) else {
            return None;
        };
        self.bytes = &self.bytes[end..];
        self.left -= 1;
        Some(value)
    }
}

/// The values after their count, which is at an offset within a body.
pub fn values_at(body: &[u8], at: usize) -> Result<(Values<'_>, usize), FrontendFault>
    requires { at ≤ length body.now }
    ensures { GivesAt (counted value) (λ values. values) body.now at result }
{
    let (count, first) = u16_at(body, at)?;
    let left = usize::from(count);
    let mut end = first;
    for _index in 0..left {
        let (_value, after) = value_at(body, end)?;
        end = after;
    }
    let bytes = &body[first..];
    Ok((Values { bytes, left }, end))
}

/// The value at an offset within a body, nothing for NULL. Refused with `ValueLength` where its length is below -1.
pub fn value_at(body: &[u8], at: usize) -> Result<(Option<&[u8]>, usize), FrontendFault>
    requires { at ≤ length body.now }
    ensures { GivesAt value option_copied body.now at result }
{
    let (length, start) = i32_at(body, at)?;
    if length == NULL {
        return Ok((None, start));
    }
    if length < 0 {
        return Err(FrontendFault::ValueLength { at, length });
    }
    let (value, end) = bytes_at(body, start, length.cast_unsigned() as usize)?;
    Ok((Some(value), end))
}
