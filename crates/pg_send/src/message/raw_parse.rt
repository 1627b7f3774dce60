//! A statement of any name that is prepared.

ghost use Rattle.pg_send.specs.RawParse.{raw_parse_law, raw_parse_fields};

use crate::message::composed::Composed;
use crate::message::counted::{TypeNumber, Types};
use crate::message::parse::ParseParts;
use crate::message::round_trip::{check_ended, check_name};
use pg_base::io::part::Then;
use pg_base::io::{Ended, Oid};
use pg_base::{FrontendMessageFormat, ProtocolFault};

/// As [`Parse`](crate::message::Parse), with any bytes for a name and a text. With a NUL in one of
/// them the message doesn't make the round trip. Documentation: "Message Formats", Parse (F).
#[derive(Debug, Drop)]
pub struct RawParse<'a, T = Oid> {
    /// The statement to prepare: empty for the one without a name.
    pub statement: &'a [u8],
    /// Its text.
    pub query: &'a [u8],
    /// The types of the parameters from the first on, at most 65535; the server infers those that
    /// are 0 or missing.
    pub param_types: &'a [T],
}

impl<'a, T: TypeNumber + Drop> Composed for RawParse<'a, T> {
    type Body = ParseParts<'a, &'a [u8], &'a [u8], T>;

    const FORMAT: FrontendMessageFormat = FrontendMessageFormat::Parse;

    ghost law = { λ parse. raw_parse_law (raw_parse_fields T.number parse) };

    ghost use Rattle.std.specs.Prelude.{refl};

    ghost snug = { λ _. refl };

    fn letter(&self) -> u8 {
        FrontendMessageFormat::Parse as u8
    }

    // Refused with `TextHoldsNul` where its name or its query holds a NUL.
    #[inline(always)]
    fn check(&self) -> Result<(), ProtocolFault> {
        check_name(self.statement)?;
        check_ended(self.query)
    }

    #[inline(always)]
    fn parts(&self) -> Self::Body {
        Then(
            Ended(self.statement),
            Then(Ended(self.query), Types(self.param_types)),
        )
    }
}
