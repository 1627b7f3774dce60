//! A call of a function by its object id.

ghost use Rattle.pg_send.specs.FunctionCall.{function_call_law, function_call_fields};

use crate::message::composed::Composed;
use crate::message::counted::{Codes, ParamFormats};
use crate::message::values::{AsValue, CountedValues};
use pg_base::io::Oid;
use pg_base::io::part::{Number16, Number32, Then};
use pg_base::{FrontendMessageFormat, ProtocolFault};

/// Calls a function of the server. The answer is a FunctionCallResponse. Documentation: "Message Formats", FunctionCall (F).
#[derive(Drop)]
pub struct FunctionCall<'a, V = Option<&'a [u8]>> {
    /// The function.
    pub object_id: Oid,
    /// The codes of the formats of the arguments, at most 65535: none where all are text, one for
    /// all of them, or one each. 0 is text and 1 binary.
    pub formats: &'a [u16],
    /// The arguments, `None` for NULL. More than 65535 are refused with `BadParams`.
    pub arguments: &'a [V],
    /// The code of the format of the result.
    pub result_format: u16,
}

impl<'a, V: AsValue + Drop> Composed for FunctionCall<'a, V> {
    type Body = Then<
        Number32,
        Then<Codes<'a, ParamFormats, u16>, Then<CountedValues<'a, V>, Number16>>,
    >;

    const FORMAT: FrontendMessageFormat = FrontendMessageFormat::FunctionCall;

    ghost law = { λ call. function_call_law (function_call_fields V.value call) };

    ghost use Rattle.std.specs.Prelude.{refl};

    ghost snug = { λ _. refl };

    fn letter(&self) -> u8 {
        FrontendMessageFormat::FunctionCall as u8
    }

    #[inline(always)]
    fn check(&self) -> Result<(), ProtocolFault> {
        Ok(())
    }

    #[inline(always)]
    fn parts(&self) -> Self::Body {
        Then(
            Number32(self.object_id.0),
            Then(
                Codes(ParamFormats, self.formats),
                Then(CountedValues(self.arguments), Number16(self.result_format)),
            ),
        )
    }
}
