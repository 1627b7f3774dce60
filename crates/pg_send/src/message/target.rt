//! What a prepared statement or a portal takes and gives, and one that is closed.

ghost use Rattle.pg_send.specs.Target.{close_or_describe_law, target_of};

use crate::message::composed::Composed;
use pg_base::io::part::{Byte, Either, Then};
use pg_base::io::{Ended, PortalId, StatementId};
use pg_base::{FrontendMessageFormat, ProtocolFault};

/// The letter of a statement.
pub(crate) const STATEMENT: u8 = b'S';

/// The letter of a portal.
pub(crate) const PORTAL: u8 = b'P';

/// Asks the server to close a prepared statement or a portal, or to describe it.
#[derive(Debug, Drop)]
pub enum TargetOf<const CLOSES: bool> {
    Statement(StatementId),
    Portal(PortalId),
}

/// Asks the server to close a prepared statement or a portal. Documentation: "Message Formats", Close
/// (F).
pub type Close = TargetOf<true>;

/// Asks the server to describe a prepared statement or a portal. Documentation: "Message Formats",
/// Describe (F).
pub type Describe = TargetOf<false>;

impl<const CLOSES: bool> Composed for TargetOf<CLOSES> {
    ghost use Rattle.std.specs.Prelude.{refl};

    type Body = Then<Byte, Either<Ended<StatementId>, Ended<PortalId>>>;

    const FORMAT: FrontendMessageFormat = if CLOSES {
        FrontendMessageFormat::Close
    } else {
        FrontendMessageFormat::Describe
    };

    ghost law = { λ it. close_or_describe_law CLOSES (target_of it) };

    ghost snug = { λ _. refl };

    fn letter(&self) -> u8 {
        if CLOSES { b'C' } else { b'D' }
    }

    #[inline(always)]
    fn check(&self) -> Result<(), ProtocolFault> {
        Ok(())
    }

    #[inline(always)]
    fn parts(&self) -> Self::Body {
        match self {
            TargetOf::Statement(id) => Then(Byte(STATEMENT), Either::First(Ended(*id))),
            TargetOf::Portal(id) => Then(Byte(PORTAL), Either::Second(Ended(*id))),
        }
    }
}
