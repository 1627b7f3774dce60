//! A portal of any name that is made.

ghost use Rattle.pg_send.specs.RawBind.{raw_bind_law, raw_bind_fields};

use crate::message::bind::BindParts;
use crate::message::composed::Composed;
use crate::message::counted::{Codes, ParamFormats, ResultFormats};
use crate::message::round_trip::check_name;
use crate::message::values::{AsValue, CountedValues};
use pg_base::io::Ended;
use pg_base::io::part::{Then, ThenFirst};
use pg_base::{FrontendMessageFormat, ProtocolFault};

/// As [`Bind`](crate::message::Bind), with any bytes for names, any codes for formats, and the values
/// where they lie. With a NUL in a name the message doesn't make the round trip. Documentation:
/// "Message Formats", Bind (F).
#[derive(Debug, Drop)]
pub struct RawBind<'a, V = Option<&'a [u8]>> {
    /// The portal to make: empty for the one without a name.
    pub portal: &'a [u8],
    /// The prepared statement to make it of: empty for the one without a name.
    pub statement: &'a [u8],
    /// The codes of the formats of the parameters, at most 65535: none where all are text, one for
    /// all of them, or one each. 0 is text and 1 binary.
    pub formats: &'a [u16],
    /// The values of the parameters, `None` for NULL. More than 65535 are refused with `BadParams`.
    pub values: &'a [V],
    /// The codes of the formats of the result's columns, as those of the parameters.
    pub result_formats: &'a [u16],
}

impl<'a, V: AsValue + Drop> Composed for RawBind<'a, V> {
    type Body = BindParts<
        'a,
        &'a [u8],
        &'a [u8],
        u16,
        ThenFirst<CountedValues<'a, V>, Codes<'a, ResultFormats, u16>>,
    >;

    const FORMAT: FrontendMessageFormat = FrontendMessageFormat::Bind;

    ghost law = { λ bind. raw_bind_law (raw_bind_fields V.value bind) };

    ghost use Rattle.std.specs.Prelude.{refl};

    ghost snug = { λ _. refl };

    fn letter(&self) -> u8 {
        FrontendMessageFormat::Bind as u8
    }

    // Refused with `TextHoldsNul` where a name holds a NUL.
    #[inline(always)]
    fn check(&self) -> Result<(), ProtocolFault> {
        check_name(self.portal)?;
        check_name(self.statement)
    }

    #[inline(always)]
    fn parts(&self) -> Self::Body {
        Then(
            Ended(self.portal),
            Then(
                Ended(self.statement),
                Then(
                    Codes(ParamFormats, self.formats),
                    ThenFirst(
                        CountedValues(self.values),
                        Codes(ResultFormats, self.result_formats),
                    ),
                ),
            ),
        )
    }
}
