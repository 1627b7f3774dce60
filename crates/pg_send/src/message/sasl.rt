//! The client's part of authentication by SASL.

ghost use Rattle.std.specs.Prelude.{◌≡◌};
ghost use Rattle.pg_send.specs.Message as message;
ghost use Rattle.pg_send.specs.Message.{law_of};
ghost use Rattle.pg_send.specs.SaslInitialResponse.{mechanism, sasl_initial_law, sasl_initial_fields};

use crate::message::composed::Composed;
use pg_base::io::Ended;
use pg_base::io::part::{Slice, Then};
use pg_base::{FrontendMessageFormat, ProtocolFault};
use pg_format::value::Value;

/// Chooses SCRAM with SHA-256, and begins it. Documentation: "Message Formats",
/// SASLInitialResponse (F).
#[derive(Drop)]
pub struct SaslInitialResponse<'a> {
    /// What the client says first.
    pub response: &'a str,
    /// With channel binding.
    pub plus: bool,
}

impl SaslInitialResponse<'_> {
    fn selected_mechanism(&self) -> &'static str
        ensures { result.now ≡ mechanism self.now.plus }
    {
        if self.plus {
            "SCRAM-SHA-256-PLUS"
        } else {
            "SCRAM-SHA-256"
        }
    }
}

impl<'a> Composed for SaslInitialResponse<'a> {
    type Body = Then<Ended<&'a str>, Value<'a>>;

    const FORMAT: FrontendMessageFormat = FrontendMessageFormat::PasswordPolymorphic;

    ghost law = { λ sasl. sasl_initial_law (sasl_initial_fields sasl) };

    ghost use Rattle.std.specs.Prelude.{refl};

    ghost snug = { λ _. refl };

    fn letter(&self) -> u8 {
        <Self as Composed>::FORMAT as u8
    }

    #[inline(always)]
    fn check(&self) -> Result<(), ProtocolFault> {
        Ok(())
    }

    #[inline(always)]
    fn parts(&self) -> Self::Body {
        Then(
            Ended(self.selected_mechanism()),
            Value(Some(self.response.as_bytes())),
        )
    }
}

/// Answers a challenge of the mechanism. Documentation: "Message Formats", SASLResponse (F).
#[derive(Drop)]
pub struct SaslResponse<'a>(pub &'a str);

impl<'a> Composed for SaslResponse<'a> {
    type Body = Slice<'a>;

    const FORMAT: FrontendMessageFormat = FrontendMessageFormat::PasswordPolymorphic;

    ghost law = { λ sasl. law_of (message.SaslResponse sasl.0.now) };

    ghost use Rattle.std.specs.Prelude.{refl};

    ghost snug = { λ _. refl };

    fn letter(&self) -> u8 {
        <Self as Composed>::FORMAT as u8
    }

    #[inline(always)]
    fn check(&self) -> Result<(), ProtocolFault> {
        Ok(())
    }

    #[inline(always)]
    fn parts(&self) -> Self::Body {
        Slice(self.0.as_bytes())
    }
}
