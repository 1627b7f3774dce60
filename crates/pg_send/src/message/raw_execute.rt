//! A portal of any name that is run.

ghost use Rattle.pg_send.specs.RawExecute.{raw_execute_law, raw_execute_fields};

use crate::message::composed::Composed;
use crate::message::round_trip::check_name;
use pg_base::io::Ended;
use pg_base::io::part::{Number32, Then};
use pg_base::{FrontendMessageFormat, ProtocolFault};

/// As [`Execute`](crate::message::Execute), with any bytes for a name. With a NUL in it the message
/// doesn't make the round trip. Documentation: "Message Formats", Execute (F).
#[derive(Debug, Drop)]
pub struct RawExecute<'a> {
    /// The portal to run: empty for the one without a name.
    pub portal: &'a [u8],
    /// The most rows to send back, 0 for all of them. A server reads a signed number, and takes
    /// more than 2147483647 for all of them too.
    pub limit: u32,
}

impl<'a> Composed for RawExecute<'a> {
    type Body = Then<Ended<&'a [u8]>, Number32>;

    const FORMAT: FrontendMessageFormat = FrontendMessageFormat::Execute;

    ghost law = { λ execute. raw_execute_law (raw_execute_fields execute) };

    ghost use Rattle.std.specs.Prelude.{refl};

    ghost snug = { λ _. refl };

    fn letter(&self) -> u8 {
        <Self as Composed>::FORMAT as u8
    }

    // Refused with `TextHoldsNul` where its name holds a NUL.
    #[inline(always)]
    fn check(&self) -> Result<(), ProtocolFault> {
        check_name(self.portal)
    }

    #[inline(always)]
    fn parts(&self) -> Self::Body {
        Then(Ended(self.portal), Number32(self.limit))
    }
}
