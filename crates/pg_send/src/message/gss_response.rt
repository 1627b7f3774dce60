//! The client's part of an exchange of GSSAPI or SSPI.

ghost use Rattle.pg_send.specs.Message as message;
ghost use Rattle.pg_send.specs.Message.{law_of};

use crate::message::composed::Composed;
use pg_base::io::part::Slice;
use pg_base::{FrontendMessageFormat, ProtocolFault};

/// Data of an exchange of GSSAPI or SSPI. A SASLResponse of any bytes has the same form. Documentation:
/// "Message Formats", GSSResponse (F).
#[derive(Drop)]
pub struct GssResponse<'a>(pub &'a [u8]);

impl<'a> Composed for GssResponse<'a> {
    type Body = Slice<'a>;

    const FORMAT: FrontendMessageFormat = FrontendMessageFormat::PasswordPolymorphic;

    ghost law = { λ gss. law_of (message.SaslResponse gss.0.now) };

    ghost use Rattle.std.specs.Prelude.{refl};

    ghost snug = { λ _. refl };

    fn letter(&self) -> u8 {
        <Self as Composed>::FORMAT as u8
    }

    #[inline(always)]
    fn check(&self) -> Result<(), ProtocolFault> {
        Ok(())
    }

    #[inline(always)]
    fn parts(&self) -> Self::Body {
        Slice(self.0)
    }
}
