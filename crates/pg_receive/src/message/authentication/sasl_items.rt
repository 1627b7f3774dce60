//! The items of SASL data.

ghost use Rattle.std.specs.Prelude.{◌≡◌, ℕ, List, ◌∷◌, IfOk, IfErr};
ghost use Rattle.std.specs.Iterator.{YieldsFirstRef, item_count};
ghost use Rattle.pg_base.specs.declared.error.ProtocolFault.TheVariants.{ShortSaslItem};
ghost use Rattle.pg_format.specs.Sasl.{items_in};
ghost use Rattle.pg_receive.specs.Authentication.SaslItems.{IsKeyAndValue, IsShortItem, items_left};

use memchr::memchr;
use pg_base::ProtocolFault;
use std::marker::Model;

/// The pieces of SASL data between commas, in order.
#[derive(Drop)]
pub(crate) struct SaslItems<'a> {
    rest: Option<&'a [u8]>,
}

impl<'a> Model for SaslItems<'a> {
    ghost Value = { List (List ℕ) };

    ghost view = { λ items. items_left items.rest };
}

impl<'a> SaslItems<'a> {
    pub(crate) fn new(data: &'a [u8]) -> SaslItems<'a>
        ensures { result ≡ items_in «data».now }
    {
        SaslItems { rest: Some(data) }
    }
}

impl<'a> Iterator for SaslItems<'a> {
    type Item = &'a [u8];

    ghost next_gives = { YieldsFirstRef (λ items. items) };

    ghost remaining = { item_count (λ items. items) };

    fn next(&mut self) -> Option<&'a [u8]> {
        let (item, rest) = split_item(self.rest?);
        self.rest = rest;
        Some(item)
    }
}

// The item before the first comma, and what follows it.
fn split_item(bytes: &[u8]) -> (&[u8], Option<&[u8]>)
    ensures { items_in bytes.now ≡ result.0.now ∷ items_left result.1 }
{
    match memchr(b',', bytes) {
        Some(end) => (&bytes[..end], Some(&bytes[end + 1..])),
        None => (bytes, None),
    }
}

/// The key of an item and its value, which starts at the third byte.
pub(crate) fn split_key(item: &[u8]) -> Result<(u8, &[u8]), ProtocolFault>
    ensures found { IfOk result (λ split. IsKeyAndValue item.now split.0 split.1.now) }
    ensures short { IfErr result (λ fault. (fault ≡ ShortSaslItem) × IsShortItem item.now) }
{
    match item {
        [key, _, value @ ..] => Ok((*key, value)),
        _ => Err(ProtocolFault::ShortSaslItem),
    }
}
