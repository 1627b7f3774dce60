//! A notification of a channel.

ghost use Rattle.pg_server.specs.Backend.Message.{notification_of};

use crate::backend::OutboundMessage;
use crate::backend::text::NulEnded;
use pg_base::io::part::{Number32, Then};

/// What a session was notified of. A NUL in a text is refused with `TextHoldsNul`. Documentation:
/// "Message Formats", NotificationResponse (B).
#[derive(Drop)]
pub struct OutboundNotification<'a> {
    /// The process that notified.
    pub process_id: u32,
    /// The channel.
    pub channel: &'a [u8],
    /// What was said; empty where nothing was.
    pub payload: &'a [u8],
}

impl<'a> OutboundMessage for OutboundNotification<'a> {
    type Body = Then<Number32, Then<NulEnded<'a>, NulEnded<'a>>>;

    ghost message = { λ it. notification_of it.process_id it.channel.now it.payload.now };

    fn tag(&self) -> u8 {
        b'A'
    }

    #[inline(always)]
    fn parts(&self) -> Self::Body {
        let texts = Then(NulEnded(self.channel), NulEnded(self.payload));
        Then(Number32(self.process_id), texts)
    }
}
