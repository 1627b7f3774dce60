//! A row of values.

ghost use Rattle.std.specs.Prelude.{false, option_copied};
ghost use Rattle.pg_server.specs.Backend.OutboundItem.{said};
ghost use Rattle.pg_server.specs.Backend.Message as messages;

use crate::backend::OutboundMessage;
use crate::backend::outbound_item::{AsOutboundItem, Count, Counted, OutboundItem, OutboundItems};
use pg_base::io::part::Then;
use pg_format::value::Value;
use std::marker::PhantomData;

/// The values of a row, each as bytes in the format that was asked for, or `None` for NULL. More than
/// 65535 are refused with `TooMany`. Documentation: "Message Formats", DataRow (B).
#[derive(Drop)]
pub struct OutboundDataRow<'a, V = Option<&'a [u8]>> {
    pub values: &'a [V],
}

impl<'a, V: AsOutboundItem<Option<&'a [u8]>>> OutboundMessage for OutboundDataRow<'a, V> {
    type Body = Counted<'a, Option<&'a [u8]>, V>;

    ghost message = { λ row. messages.DataRow (said V.item option_copied row.values.now) };

    fn tag(&self) -> u8 {
        b'D'
    }

    #[inline(always)]
    fn parts(&self) -> Self::Body {
        Then(
            Count(self.values.len()),
            OutboundItems(PhantomData, self.values),
        )
    }
}

impl<'a> OutboundItem for Option<&'a [u8]> {
    type Parts = Value<'a>;

    ghost use Rattle.std.specs.Prelude.{ℕ, List, Option, option_copied};
    ghost use Rattle.pg_format.specs.Format.Nullable.{cell};

    ghost Value = { Option (List ℕ) };

    ghost value = { λ value. option_copied value };

    ghost format = { cell };

    ghost is_broken = { λ _. false };

    ghost IsInRange = { λ _. Unit {0} };

    #[inline(always)]
    fn parts(&self) -> Value<'a> {
        Value(*self)
    }
}
