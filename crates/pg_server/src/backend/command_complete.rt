//! The end of a command.

ghost use Rattle.pg_server.specs.Backend.Message as messages;

use crate::backend::OutboundMessage;
use crate::backend::text::NulEnded;

/// A command has ended. Documentation: "Message Formats", CommandComplete (B).
#[derive(Drop)]
pub struct OutboundCommandComplete<'a> {
    /// The tag of the command, as `INSERT 0 1`. Refused with `TextHoldsNul` where it holds a NUL.
    pub command: &'a [u8],
}

impl<'a> OutboundMessage for OutboundCommandComplete<'a> {
    type Body = NulEnded<'a>;

    ghost message = { λ complete. messages.CommandComplete complete.command.now };

    fn tag(&self) -> u8 {
        b'C'
    }

    #[inline(always)]
    fn parts(&self) -> Self::Body {
        NulEnded(self.command)
    }
}
