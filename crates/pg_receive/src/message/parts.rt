//! The parts of a body: fields, and numbers in decimal.

ghost use Rattle.std.specs.Prelude.{◌≡◌, List, [], Option, IfSome, IfNone};
ghost use Rattle.std.specs.Iterator.{YieldsFirstBy, item_count};
ghost use Rattle.pg_format.specs.Notices.{Field};
ghost use Rattle.pg_receive.specs.Decimal.{leading_decimal};
ghost use Rattle.pg_receive.specs.Response.Fields.{BeginsWithField, fields_in};

use pg_base::io::{atoi_u32, atoi_u64, atoi_usize};
use pg_format::text::split_text;
use std::marker::Model;

/// The fields of an error or a notice, in order: a letter that says what it is, and its bytes.
/// Documentation: "Error and Notice Message Fields".
///
/// The list stops at a letter 0, at a field that no NUL ends, or else where the body stops. The
/// iterator then stays at its end.
#[derive(Drop)]
pub struct Fields<'a> {
    rest: &'a [u8],
}

impl<'a> Model for Fields<'a> {
    ghost Value = { List Field };

    ghost view = { λ fields. fields_in fields.rest.now };
}

impl<'a> Fields<'a> {
    /// The fields of a body.
    pub fn new(body: &'a [u8]) -> Fields<'a>
        ensures { result ≡ fields_in body.now }
    {
        Fields { rest: body }
    }
}

impl<'a> Iterator for Fields<'a> {
    type Item = (u8, &'a [u8]);

    ghost next_gives = { YieldsFirstBy (λ item. (item.0, item.1.now)) (λ fields. fields) };

    ghost remaining = { item_count (λ fields. fields) };

    fn next(&mut self) -> Option<(u8, &'a [u8])> {
        let (letter, value, rest) = split_field(self.rest)?;
        self.rest = rest;
        Some((letter, value))
    }
}

/// The field at the front of some bytes, its letter and its value, and what follows its NUL.
pub fn split_field(bytes: &[u8]) -> Option<(u8, &[u8], &[u8])>
    ensures found { IfSome result (λ item. BeginsWithField bytes.now item.0 item.1.now item.2.now) }
    ensures none { IfNone result (fields_in bytes.now ≡ []) }
{
    let (letter, rest) = bytes.split_first()?;
    if *letter == 0 {
        return None;
    }
    let (value, rest) = split_text(rest)?;
    Some((*letter, value, rest))
}

/// The number at the front of some bytes, as `atoi_u32` has it.
#[tactic(auto, using(crate::proofs::DecimalLemmas::number_is))]
pub fn leading_u32(bytes: &[u8]) -> Option<u32>
    ensures { result ≡ leading_decimal u32.MAX bytes.now }
{
    atoi_u32(bytes)
}

/// The number at the front of some bytes, as `atoi_u64` has it.
#[tactic(auto, using(crate::proofs::DecimalLemmas::number_is))]
pub fn leading_u64(bytes: &[u8]) -> Option<u64>
    ensures { result ≡ leading_decimal u64.MAX bytes.now }
{
    atoi_u64(bytes)
}

/// The number at the front of some bytes, as `atoi_usize` has it.
#[tactic(auto, using(crate::proofs::DecimalLemmas::number_is))]
pub fn leading_usize(bytes: &[u8]) -> Option<usize>
    ensures { result ≡ leading_decimal usize.MAX bytes.now }
{
    atoi_usize(bytes)
}
