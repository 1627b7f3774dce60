//! The messages without a body.

ghost use Rattle.pg_server.specs.Backend.Message as messages;

use crate::backend::OutboundMessage;
use pg_base::io::part::NoBytes;

/// A message without a body. As a number it is the tag. Documentation: "Message Formats", the messages
/// of these names marked (B).
#[derive(Clone, Copy, Debug, PartialEq, Eq)]
pub enum OutboundNoBody {
    ParseComplete = b'1' as isize,
    BindComplete = b'2' as isize,
    CloseComplete = b'3' as isize,
    EmptyQueryResponse = b'I' as isize,
    CopyDone = b'c' as isize,
    NoData = b'n' as isize,
    PortalSuspended = b's' as isize,
}

impl OutboundMessage for OutboundNoBody {
    type Body = NoBytes;

    ghost message = { messages.NoBody };

    fn tag(&self) -> u8 {
        *self as u8
    }

    #[inline(always)]
    fn parts(&self) -> NoBytes {
        NoBytes
    }
}
