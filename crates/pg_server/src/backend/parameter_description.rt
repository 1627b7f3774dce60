//! The types of the parameters of a statement.

ghost use Rattle.std.specs.Prelude.{false};
ghost use Rattle.pg_server.specs.Backend.OutboundItem.{said};
ghost use Rattle.pg_server.specs.Backend.Message as messages;

use crate::backend::OutboundMessage;
use crate::backend::outbound_item::{AsOutboundItem, Count, Counted, OutboundItem, OutboundItems};
use pg_base::io::Oid;
use pg_base::io::part::{Number32, Then};
use std::marker::PhantomData;

/// The types of the parameters of a statement. More than 65535 are refused with `TooMany`.
/// Documentation: "Message Formats", ParameterDescription (B).
#[derive(Drop)]
pub struct OutboundParameterDescription<'a, T = Oid> {
    pub types: &'a [T],
}

impl<'a, T: AsOutboundItem<Oid>> OutboundMessage for OutboundParameterDescription<'a, T> {
    type Body = Counted<'a, Oid, T>;

    ghost message = { λ it. messages.ParameterDescription (said T.item (λ n. n.0) it.types.now) };

    fn tag(&self) -> u8 {
        b't'
    }

    #[inline(always)]
    fn parts(&self) -> Self::Body {
        Then(
            Count(self.types.len()),
            OutboundItems(PhantomData, self.types),
        )
    }
}

impl OutboundItem for Oid {
    type Parts = Number32;

    ghost use Rattle.std.specs.Prelude.{ℕ, ◌^◌, ◌<◌};
    ghost use Rattle.pg_format.specs.Format.Parts.{be_u32};

    ghost Value = { ℕ };

    ghost value = { λ oid. oid.0 };

    ghost format = { be_u32 };

    ghost is_broken = { λ _. false };

    ghost IsInRange = { λ n. n < 2 ^ 32 };

    #[inline(always)]
    fn parts(&self) -> Number32 {
        Number32(self.0)
    }
}

/// An id by its number.
impl AsOutboundItem<Oid> for u32 {
    ghost use Rattle.pg_base.specs.declared.io.Oid.{Oid};

    ghost item = { λ number. record { 0 = number } };

    #[inline(always)]
    fn as_item(&self) -> Oid {
        Oid(*self)
    }
}
