//! A portal that is run.

ghost use Rattle.pg_send.specs.Execute.{execute_law, execute_fields};

use crate::message::composed::Composed;
use pg_base::io::part::{Number32, Then};
use pg_base::io::{Ended, PortalId};
use pg_base::{FrontendMessageFormat, ProtocolFault};

/// Asks the server to run a portal. Documentation: "Message Formats", Execute (F).
#[derive(Drop)]
pub struct Execute {
    /// The portal to run.
    pub portal: PortalId,
    /// The most rows to send back, 0 for all of them. A server reads a signed number, and takes
    /// more than 2147483647 for all of them too.
    pub limit: u32,
}

impl Composed for Execute {
    type Body = Then<Ended<PortalId>, Number32>;

    const FORMAT: FrontendMessageFormat = FrontendMessageFormat::Execute;

    ghost law = { λ execute. execute_law (execute_fields execute) };

    ghost use Rattle.std.specs.Prelude.{refl};

    ghost snug = { λ _. refl };

    fn letter(&self) -> u8 {
        <Self as Composed>::FORMAT as u8
    }

    #[inline(always)]
    fn check(&self) -> Result<(), ProtocolFault> {
        Ok(())
    }

    #[inline(always)]
    fn parts(&self) -> Self::Body {
        Then(Ended(self.portal), Number32(self.limit))
    }
}
