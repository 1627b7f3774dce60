//! The result of a function that was called.

ghost use Rattle.std.specs.Prelude.{option_copied};
ghost use Rattle.pg_server.specs.Backend.Message as messages;

use crate::backend::OutboundMessage;
use pg_format::value::Value;

/// The result of a function that was called, `None` for NULL. Documentation: "Message Formats",
/// FunctionCallResponse (B).
#[derive(Drop)]
pub struct OutboundFunctionCallResponse<'a> {
    pub value: Option<&'a [u8]>,
}

impl<'a> OutboundMessage for OutboundFunctionCallResponse<'a> {
    type Body = Value<'a>;

    ghost message = { λ response. messages.FunctionCallResponse (option_copied response.value) };

    fn tag(&self) -> u8 {
        b'V'
    }

    #[inline(always)]
    fn parts(&self) -> Self::Body {
        Value(self.value)
    }
}
