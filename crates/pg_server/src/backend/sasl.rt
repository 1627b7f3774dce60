//! The mechanisms by which a client may say who it is.

ghost use Rattle.pg_server.specs.Backend.OutboundItem.{said};
ghost use Rattle.pg_server.specs.Backend.Message.{sasl_offer_of};

use crate::backend::OutboundMessage;
use crate::backend::outbound_item::{AsOutboundItem, OutboundItem, OutboundItems, nul_fault};
use crate::backend::text::holds_nul;
use pg_base::ProtocolFault;
use pg_base::io::part::{Byte, Number32, Part, Then, ThenFirst};
use pg_base::io::{Ended, Sink};
use std::marker::PhantomData;

/// The number of the method.
pub(crate) const SASL: u32 = 10;

/// An exchange of SASL by one of these mechanisms, the best first, as [`OutboundAuthentication`] has it. A name
/// that is empty or holds a NUL is refused with `TextHoldsNul`. Documentation: "Message Formats",
/// AuthenticationSASL (B).
///
/// [`OutboundAuthentication`]: crate::backend::OutboundAuthentication
#[derive(Drop)]
pub struct OutboundSasl<'a, N = &'a [u8]> {
    pub mechanisms: &'a [N],
}

/// The names of mechanisms, and the byte that ends them.
pub type Mechanisms<'a, N> = ThenFirst<OutboundItems<'a, Mechanism<'a>, N>, Byte>;

impl<'a, N: AsOutboundItem<Mechanism<'a>>> OutboundMessage for OutboundSasl<'a, N> {
    type Body = Then<Number32, Mechanisms<'a, N>>;

    ghost message = { λ it. sasl_offer_of (said N.item (λ n. n.0.now) it.mechanisms.now) };

    fn tag(&self) -> u8 {
        b'R'
    }

    #[inline(always)]
    fn parts(&self) -> Self::Body {
        let names = ThenFirst(OutboundItems(PhantomData, self.mechanisms), Byte(0));
        Then(Number32(SASL), names)
    }
}

/// The name of a mechanism and the NUL that ends it. One that is empty, which would end the names, or holds a
/// NUL is refused with `TextHoldsNul`.
#[derive(Clone, Copy)]
pub struct Mechanism<'a>(pub &'a [u8]);

impl<'a> AsOutboundItem<Mechanism<'a>> for &'a [u8] {
    ghost use Rattle.pg_server.specs.declared.backend.sasl.Mechanism.{Mechanism};

    ghost item = { λ name. record { 0 = name } };

    #[inline(always)]
    fn as_item(&self) -> Mechanism<'a> {
        Mechanism(self)
    }
}

impl<'a> OutboundItem for Mechanism<'a> {
    type Parts = Mechanism<'a>;

    ghost use Rattle.std.specs.Prelude.{ℕ, List};
    ghost use Rattle.pg_format.specs.Format.Parts.{until_nul};
    ghost use Rattle.pg_server.specs.Backend.OutboundItem.{breaks_names};

    ghost Value = { List ℕ };

    ghost value = { λ name. name.0.now };

    ghost format = { until_nul };

    ghost is_broken = { breaks_names };

    ghost IsInRange = { λ _. Unit {0} };

    #[inline(always)]
    fn parts(&self) -> Mechanism<'a> {
        *self
    }
}

impl Part for Mechanism<'_> {
    ghost use Rattle.pg_server.specs.Backend.OutboundItem.{name_part};

    ghost part = { λ it. name_part it.0.now };

    #[inline(always)]
    fn len(&self) -> usize {
        Ended(self.0).len()
    }

    #[inline(always)]
    fn fault(&self) -> Option<ProtocolFault> {
        nul_fault(self.0.is_empty() || holds_nul(self.0))
    }

    #[inline(always)]
    fn put<S: Sink>(&self, sink: &mut S) {
        sink.put_text(self.0);
    }
}
