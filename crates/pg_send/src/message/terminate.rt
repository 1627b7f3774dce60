//! The end of a session.

ghost use Rattle.pg_send.specs.Message as message;
ghost use Rattle.pg_send.specs.Message.{law_of};

use crate::message::composed::Composed;
use pg_base::io::part::NoBytes;
use pg_base::{FrontendMessageFormat, ProtocolFault};

/// Tells the server that the session ends. Documentation: "Message Formats", Terminate (F).
#[derive(Drop)]
pub struct Terminate;

impl Composed for Terminate {
    type Body = NoBytes;

    const FORMAT: FrontendMessageFormat = FrontendMessageFormat::Terminate;

    ghost law = { λ _. law_of message.Terminate };

    ghost use Rattle.std.specs.Prelude.{refl};

    ghost snug = { λ _. refl };

    fn letter(&self) -> u8 {
        <Self as Composed>::FORMAT as u8
    }

    #[inline(always)]
    fn check(&self) -> Result<(), ProtocolFault> {
        Ok(())
    }

    #[inline(always)]
    fn parts(&self) -> Self::Body {
        NoBytes
    }
}
