//! A message that only passes through.

ghost use Rattle.pg_server.specs.Backend.Message as messages;

use crate::backend::OutboundMessage;
use pg_base::io::part::Slice;

/// Any tag and any body: what only passes through, or what this layer doesn't know.
#[derive(Drop)]
pub struct OutboundRaw<'a> {
    /// The tag.
    pub tag: u8,
    /// The body, without tag and length.
    pub body: &'a [u8],
}

impl<'a> OutboundMessage for OutboundRaw<'a> {
    type Body = Slice<'a>;

    ghost message = { λ raw. messages.Raw raw.tag raw.body.now };

    fn tag(&self) -> u8 {
        self.tag
    }

    #[inline(always)]
    fn parts(&self) -> Self::Body {
        Slice(self.body)
    }
}
