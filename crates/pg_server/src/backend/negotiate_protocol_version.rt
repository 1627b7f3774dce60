//! What of the protocol the server doesn't speak.

ghost use Rattle.pg_server.specs.Backend.OutboundItem.{said};
ghost use Rattle.pg_server.specs.Backend.Message.{negotiation_of};

use crate::backend::OutboundMessage;
use crate::backend::outbound_item::{AsOutboundItem, OutboundItems};
use pg_base::ProtocolFault;
use pg_base::io::Sink;
use pg_base::io::part::{Number16, Part, Then};
use std::marker::PhantomData;

// The version of the protocol, without the minor one.
const MAJOR: u16 = 3;

/// The server speaks an older minor version than the client asked for, or doesn't know some of its
/// options. Documentation: "Message Formats", NegotiateProtocolVersion (B).
#[derive(Drop)]
pub struct OutboundNegotiateProtocolVersion<'a, N = &'a [u8]> {
    /// The newest minor version of the protocol's version 3 that the server speaks.
    pub minor: u16,
    /// The names of the options that it doesn't know. A NUL in one is refused with `TextHoldsNul`.
    pub options: &'a [N],
}

impl<'a, N: AsOutboundItem<&'a [u8]>> OutboundMessage for OutboundNegotiateProtocolVersion<'a, N> {
    type Body = Then<Then<Number16, Number16>, Options<'a, N>>;

    ghost message = { λ it. negotiation_of it.minor (said N.item (λ n. n.now) it.options.now) };

    fn tag(&self) -> u8 {
        b'v'
    }

    #[inline(always)]
    fn parts(&self) -> Self::Body {
        let version = Then(Number16(MAJOR), Number16(self.minor));
        Then(version, Options(OutboundItems(PhantomData, self.options)))
    }
}

/// The names of options after their count. Each has a byte or more, so that they can be counted where their
/// length can be said.
#[derive_where(Clone, Copy)]
pub struct Options<'a, N>(pub OutboundItems<'a, &'a [u8], N>);

impl<'a, N: AsOutboundItem<&'a [u8]>> Part for Options<'a, N> {
    ghost use Rattle.pg_server.specs.Backend.NegotiateProtocolVersion.{options_part};

    ghost part = { λ it. options_part (said N.item (λ n. n.now) it.0.1.now) };

    #[inline(always)]
    fn len(&self) -> usize {
        self.0.len().saturating_add(4)
    }

    #[inline(always)]
    fn fault(&self) -> Option<ProtocolFault> {
        self.0.fault()
    }

    #[inline(always)]
    fn put<S: Sink>(&self, sink: &mut S) {
        sink.put_u32(self.0.1.len() as u32);
        self.0.put(sink);
    }
}
