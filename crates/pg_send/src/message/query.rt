//! A simple query.

ghost use Rattle.pg_send.specs.Message as message;
ghost use Rattle.pg_send.specs.Message.{law_of};

use crate::message::composed::Composed;
use crate::message::round_trip::check_text;
use pg_base::io::Ended;
use pg_base::{FrontendMessageFormat, ProtocolFault};

/// Asks the server to run the statements of a text. Documentation: "Message Formats", Query (F).
#[derive(Debug, Drop)]
pub struct Query<'a>(pub &'a str);

impl<'a> Composed for Query<'a> {
    type Body = Ended<&'a str>;

    const FORMAT: FrontendMessageFormat = FrontendMessageFormat::Query;

    ghost law = { λ query. law_of (message.Query query.0.now) };

    ghost use Rattle.std.specs.Prelude.{refl};

    ghost snug = { λ _. refl };

    fn letter(&self) -> u8 {
        <Self as Composed>::FORMAT as u8
    }

    // Refused with `TextHoldsNul` where it holds a NUL.
    #[inline(always)]
    fn check(&self) -> Result<(), ProtocolFault> {
        check_text(self.0)
    }

    #[inline(always)]
    fn parts(&self) -> Self::Body {
        Ended(self.0)
    }
}
