//! The end of an extended query.

ghost use Rattle.pg_send.specs.Message as message;
ghost use Rattle.pg_send.specs.Message.{law_of};

use crate::message::composed::Composed;
use pg_base::io::part::NoBytes;
use pg_base::{FrontendMessageFormat, ProtocolFault};

/// Asks the server to end the extended query and to say that it is ready. Documentation: "Message
/// Formats", Sync (F).
#[derive(Debug, Drop)]
pub struct Sync;

impl Composed for Sync {
    type Body = NoBytes;

    const FORMAT: FrontendMessageFormat = FrontendMessageFormat::Sync;

    ghost law = { λ _. law_of message.Sync };

    ghost use Rattle.std.specs.Prelude.{refl};

    ghost snug = { λ _. refl };

    fn letter(&self) -> u8 {
        <Self as Composed>::FORMAT as u8
    }

    #[inline(always)]
    fn check(&self) -> Result<(), ProtocolFault> {
        Ok(())
    }

    #[inline(always)]
    fn parts(&self) -> Self::Body {
        NoBytes
    }
}
