//! A portal that is made of a prepared statement.

ghost use Rattle.pg_send.specs.Bind.{bind_law, bind_fields};

use crate::message::composed::Composed;
use crate::message::counted::{Codes, ParamFormats, ResultFormats};
use crate::message::round_trip::check_values;
use pg_base::io::part::{Number16, Slice, Then};
use pg_base::io::{Ended, PgValueFormat, PortalId, StatementId};
use pg_base::{FrontendMessageFormat, ProtocolFault};

/// The parts of a Bind: two names, the formats of the parameters, and the rest: their values, and
/// the formats of the results.
pub type BindParts<'a, P, S, C, R> = Then<
    Ended<P>,
    Then<Ended<S>, Then<Codes<'a, ParamFormats, C>, R>>,
>;

/// Values as they are spelled, after their count.
pub type Spelled<'a> = Then<Number16, Slice<'a>>;

/// Asks the server to make a portal of a prepared statement and the values of its parameters.
/// Documentation: "Message Formats", Bind (F).
#[derive(Debug, Drop)]
pub struct Bind<'a> {
    /// The portal to make.
    pub portal: PortalId,
    /// The prepared statement to make it of.
    pub statement: StatementId,
    /// The formats of the parameters, at most 65535: none where all are text, one for all of them,
    /// or one each.
    pub formats: &'a [PgValueFormat],
    /// How many values `params` holds.
    pub num_params: u16,
    /// The values, each after its length in four bytes, which is -1 for NULL. They are sent as
    /// they are.
    pub params: &'a [u8],
    /// The formats of the result's columns, at most 65535: none where all are text, one for all of
    /// them, or one each.
    pub result_formats: &'a [PgValueFormat],
}

impl<'a> Composed for Bind<'a> {
    type Body = BindParts<
        'a,
        PortalId,
        StatementId,
        PgValueFormat,
        Then<Spelled<'a>, Codes<'a, ResultFormats, PgValueFormat>>,
    >;

    const FORMAT: FrontendMessageFormat = FrontendMessageFormat::Bind;

    ghost law = { λ bind. bind_law (bind_fields bind) };

    ghost use Rattle.std.specs.Prelude.{refl};

    ghost snug = { λ _. refl };

    fn letter(&self) -> u8 {
        <Self as Composed>::FORMAT as u8
    }

    // Refused with `BadParams` where `params` is not `num_params` values.
    #[inline(always)]
    fn check(&self) -> Result<(), ProtocolFault> {
        check_values(self.num_params, self.params)
    }

    #[inline(always)]
    fn parts(&self) -> Self::Body {
        Then(
            Ended(self.portal),
            Then(
                Ended(self.statement),
                Then(
                    Codes(ParamFormats, self.formats),
                    Then(
                        Then(Number16(self.num_params), Slice(self.params)),
                        Codes(ResultFormats, self.result_formats),
                    ),
                ),
            ),
        )
    }
}
