//! The choice of any mechanism of authentication.

ghost use Rattle.pg_send.specs.SaslInitial.{any_sasl_law, any_sasl_fields};

use crate::message::composed::Composed;
use crate::message::round_trip::check_ended;
use pg_base::io::Ended;
use pg_base::io::part::Then;
use pg_base::{FrontendMessageFormat, ProtocolFault};
use pg_format::value::Value;

/// Chooses any mechanism of SASL, and may begin it. With a NUL in the name the message doesn't make
/// the round trip. Documentation: "Message Formats", SASLInitialResponse (F).
#[derive(Drop)]
pub struct SaslInitial<'a> {
    /// The name of the mechanism.
    pub mechanism: &'a [u8],
    /// What the client says first; `None` where the mechanism lets the server begin.
    pub response: Option<&'a [u8]>,
}

impl<'a> Composed for SaslInitial<'a> {
    type Body = Then<Ended<&'a [u8]>, Value<'a>>;

    const FORMAT: FrontendMessageFormat = FrontendMessageFormat::PasswordPolymorphic;

    ghost law = { λ sasl. any_sasl_law (any_sasl_fields sasl) };

    ghost use Rattle.std.specs.Prelude.{refl};

    ghost snug = { λ _. refl };

    fn letter(&self) -> u8 {
        <Self as Composed>::FORMAT as u8
    }

    // Refused with `TextHoldsNul` where the name holds a NUL.
    #[inline(always)]
    fn check(&self) -> Result<(), ProtocolFault> {
        check_ended(self.mechanism)
    }

    #[inline(always)]
    fn parts(&self) -> Self::Body {
        Then(Ended(self.mechanism), Value(self.response))
    }
}
