//! A setting of the session.

ghost use Rattle.pg_server.specs.Backend.Message.{parameter_status_of};

use crate::backend::OutboundMessage;
use crate::backend::text::NulEnded;
use pg_base::io::part::Then;

/// The value of a setting, at the start of a session and whenever it changes. A NUL in a text is refused
/// with `TextHoldsNul`. Documentation: "Message Formats", ParameterStatus (B).
#[derive(Drop)]
pub struct OutboundParameterStatus<'a> {
    /// The name of the setting.
    pub name: &'a [u8],
    /// Its value.
    pub value: &'a [u8],
}

impl<'a> OutboundMessage for OutboundParameterStatus<'a> {
    type Body = Then<NulEnded<'a>, NulEnded<'a>>;

    ghost message = { λ status. parameter_status_of status.name.now status.value.now };

    fn tag(&self) -> u8 {
        b'S'
    }

    #[inline(always)]
    fn parts(&self) -> Self::Body {
        Then(NulEnded(self.name), NulEnded(self.value))
    }
}
