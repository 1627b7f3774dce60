//! A statement that is prepared.

ghost use Rattle.pg_send.specs.Parse.{parse_law, parse_fields};

use crate::message::composed::Composed;
use crate::message::counted::Types;
use crate::message::round_trip::check_text;
use pg_base::io::part::Then;
use pg_base::io::{Ended, Oid, StatementId};
use pg_base::{FrontendMessageFormat, ProtocolFault};

/// The parts of a Parse: the statement's name, its text, and the types of the parameters.
pub type ParseParts<'a, N, Q, T> = Then<Ended<N>, Then<Ended<Q>, Types<'a, T>>>;

/// Asks the server to prepare a statement. Documentation: "Message Formats", Parse (F).
#[derive(Debug, Drop)]
pub struct Parse<'a> {
    /// The statement to prepare.
    pub statement: StatementId,
    /// Its text. With a NUL in it the message doesn't make the round trip.
    pub query: &'a str,
    /// The types of the parameters from the first on, at most 65535; the server infers those that
    /// are 0 or missing.
    pub param_types: &'a [Oid],
}

impl<'a> Composed for Parse<'a> {
    type Body = ParseParts<'a, StatementId, &'a str, Oid>;

    const FORMAT: FrontendMessageFormat = FrontendMessageFormat::Parse;

    ghost law = { λ parse. parse_law (parse_fields parse) };

    ghost use Rattle.std.specs.Prelude.{refl};

    ghost snug = { λ _. refl };

    fn letter(&self) -> u8 {
        <Self as Composed>::FORMAT as u8
    }

    // Refused with `TextHoldsNul` where its query holds a NUL.
    #[inline(always)]
    fn check(&self) -> Result<(), ProtocolFault> {
        check_text(self.query)
    }

    #[inline(always)]
    fn parts(&self) -> Self::Body {
        Then(
            Ended(self.statement),
            Then(Ended(self.query), Types(self.param_types)),
        )
    }
}
