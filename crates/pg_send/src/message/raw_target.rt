//! A prepared statement or a portal of any name that is described or closed.

ghost use Rattle.pg_send.specs.RawTarget.{raw_close_or_describe_law, raw_target_of};

use crate::message::composed::Composed;
use crate::message::round_trip::check_name;
use crate::message::target::{PORTAL, STATEMENT};
use pg_base::io::Ended;
use pg_base::io::part::{Byte, Then};
use pg_base::{FrontendMessageFormat, ProtocolFault};

/// As [`Close`](crate::message::Close) or [`Describe`](crate::message::Describe), with any bytes for a
/// name, empty for the one without a name. With a NUL in it the message doesn't make the round trip.
#[derive(Debug, Drop)]
pub enum RawTargetOf<'a, const CLOSES: bool> {
    Statement(&'a [u8]),
    Portal(&'a [u8]),
}

/// As [`Close`](crate::message::Close), with any bytes for a name.
pub type RawClose<'a> = RawTargetOf<'a, true>;

/// As [`Describe`](crate::message::Describe), with any bytes for a name.
pub type RawDescribe<'a> = RawTargetOf<'a, false>;

impl<'a, const CLOSES: bool> Composed for RawTargetOf<'a, CLOSES> {
    ghost use Rattle.std.specs.Prelude.{refl};

    type Body = Then<Byte, Ended<&'a [u8]>>;

    const FORMAT: FrontendMessageFormat = if CLOSES {
        FrontendMessageFormat::Close
    } else {
        FrontendMessageFormat::Describe
    };

    ghost law = { λ it. raw_close_or_describe_law CLOSES (raw_target_of it) };

    ghost snug = { λ _. refl };

    fn letter(&self) -> u8 {
        if CLOSES { b'C' } else { b'D' }
    }

    // Refused with `TextHoldsNul` where the name holds a NUL.
    #[inline(always)]
    fn check(&self) -> Result<(), ProtocolFault> {
        match self {
            RawTargetOf::Statement(name) | RawTargetOf::Portal(name) => check_name(name),
        }
    }

    #[inline(always)]
    fn parts(&self) -> Self::Body {
        match self {
            RawTargetOf::Statement(name) => Then(Byte(STATEMENT), Ended(*name)),
            RawTargetOf::Portal(name) => Then(Byte(PORTAL), Ended(*name)),
        }
    }
}
