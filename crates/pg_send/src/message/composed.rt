//! Messages that are made of parts.

ghost use Rattle.std.specs.Prelude.{◌≡◌, IfErr, OnOk, length};
ghost use Rattle.pg_base.specs.Part.{saturated};
ghost use Rattle.pg_send.specs.Composed.{IsBodyOf};
ghost use Rattle.pg_send.specs.FrontendMessage.{Law, tag, hint, CannotRoundTrip};

use crate::message::FrontendMessage;
use pg_base::io::Sink;
use pg_base::io::part::Part;
use pg_base::{FrontendMessageFormat, ProtocolFault};

/// A message whose body is parts, one after the other, with room reserved for just them.
pub trait Composed: Sized + Drop {
    /// The parts.
    type Body: Part;

    /// The kind of message, by its tag.
    const FORMAT: FrontendMessageFormat;

    /// All that is said of the message.
    ghost law: { Self → Law };

    /// The room that is reserved is that of the body.
    ghost snug: { (message : Self) → hint (law message) ≡ saturated (length (law message).body) };

    /// The tag, as a byte. A type without parameters of types and constants gives it as the number of its `FORMAT`,
    /// which the clause then ties to the law; of another type the value of a constant isn't known here.
    fn letter(&self) -> u8
        ensures { result ≡ tag (law self.now) };

    /// Whether a reader would get the message back.
    fn check(&self) -> Result<(), ProtocolFault>
        ensures ok { OnOk result (law self.now).CanRoundTrip }
        ensures fault { IfErr result (CannotRoundTrip (law self.now)) };

    /// The parts.
    fn parts(&self) -> Self::Body
        ensures { IsBodyOf (Self.Body.part result) (law self.now) };
}

impl<M: Composed> FrontendMessage for M {
    const FORMAT: FrontendMessageFormat = <M as Composed>::FORMAT;

    ghost law = { M.law };

    #[inline(always)]
    fn tag(&self) -> u8 {
        self.letter()
    }

    #[inline(always)]
    fn body_len(&self) -> usize {
        self.parts().len()
    }

    #[inline(always)]
    fn count_fault(&self) -> Option<ProtocolFault> {
        self.parts().fault()
    }

    #[inline(always)]
    fn check_round_trip(&self) -> Result<(), ProtocolFault> {
        self.check()
    }

    #[inline(always)]
    fn room_for(&self, len: usize) -> usize {
        len
    }

    #[inline(always)]
    fn put_body<S: Sink>(&self, sink: &mut S) {
        self.parts().put(sink);
    }

    ghost use Rattle.pg_send.specs.Composed.{snug_is_enough};

    ghost enough = { λ message h. snug_is_enough (M.law message) (M.snug message) h };
}
