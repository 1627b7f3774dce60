//! The server's word that it is ready for the next query.

ghost use Rattle.pg_server.specs.Backend.Message as messages;

use crate::backend::OutboundMessage;
use pg_base::io::part::Byte;

/// The server is ready for the next query. As a number it is the letter of the message. Documentation:
/// "Message Formats", ReadyForQuery (B).
#[derive(Clone, Copy, Debug, PartialEq, Eq)]
pub enum OutboundReadyForQuery {
    /// No transaction is open.
    Idle = b'I' as isize,
    /// One is open.
    Transaction = b'T' as isize,
    /// One is open and has failed; until it ends the server refuses queries.
    Error = b'E' as isize,
}

impl OutboundMessage for OutboundReadyForQuery {
    type Body = Byte;

    ghost message = { messages.ReadyForQuery };

    fn tag(&self) -> u8 {
        b'Z'
    }

    #[inline(always)]
    fn parts(&self) -> Byte {
        Byte(*self as u8)
    }
}
