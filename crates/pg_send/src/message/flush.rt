//! A request for what the server still holds back.

ghost use Rattle.pg_send.specs.Message as message;
ghost use Rattle.pg_send.specs.Message.{law_of};

use crate::message::composed::Composed;
use pg_base::io::part::NoBytes;
use pg_base::{FrontendMessageFormat, ProtocolFault};

/// Asks the server to send what it holds back. Documentation: "Message Formats", Flush (F).
#[derive(Debug, Drop)]
pub struct Flush;

impl Composed for Flush {
    type Body = NoBytes;

    const FORMAT: FrontendMessageFormat = FrontendMessageFormat::Flush;

    ghost law = { λ _. law_of message.Flush };

    ghost use Rattle.std.specs.Prelude.{refl};

    ghost snug = { λ _. refl };

    fn letter(&self) -> u8 {
        <Self as Composed>::FORMAT as u8
    }

    #[inline(always)]
    fn check(&self) -> Result<(), ProtocolFault> {
        Ok(())
    }

    #[inline(always)]
    fn parts(&self) -> Self::Body {
        NoBytes
    }
}
