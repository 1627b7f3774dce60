//! The client's part of a COPY.

ghost use Rattle.std.specs.Prelude.{◌≡◌, string_bytes};
ghost use Rattle.pg_send.specs.Message as message;
ghost use Rattle.pg_send.specs.Message.{law_of};

use crate::message::FrontendMessage;
use crate::message::composed::Composed;
use crate::message::round_trip::check_text;
use pg_base::io::part::{NoBytes, Part};
use pg_base::io::{CopyData, CopyDone, Ended, LendBytes, Sink};
use pg_base::{FrontendMessageFormat, ProtocolFault};

/// Fails a COPY, and says why. Documentation: "Message Formats", CopyFail (F).
#[derive(Drop)]
pub struct CopyFail {
    /// Why. With a NUL in it the message doesn't make the round trip.
    pub message: String,
}

impl CopyFail {
    /// The failure with that message.
    pub fn new(msg: String) -> CopyFail
        ensures { result.message ≡ msg }
    {
        CopyFail { message: msg }
    }
}

impl<B: LendBytes> FrontendMessage for CopyData<B> {
    const FORMAT: FrontendMessageFormat = FrontendMessageFormat::CopyData;

    ghost law = { λ copy. law_of (message.CopyData (B.bytes copy.0)) };

    fn tag(&self) -> u8 {
        FrontendMessageFormat::CopyData as u8
    }

    fn body_len(&self) -> usize {
        self.0.bytes().len()
    }

    fn count_fault(&self) -> Option<ProtocolFault> {
        None
    }

    #[inline(always)]
    fn check_round_trip(&self) -> Result<(), ProtocolFault> {
        Ok(())
    }

    fn room_for(&self, len: usize) -> usize {
        len
    }

    #[inline(always)]
    fn put_body<S: Sink>(&self, sink: &mut S) {
        sink.put_slice(self.0.bytes());
    }

    ghost use Rattle.std.proofs.Common.{arith};

    ghost enough = { λ copy h. Prim.grind (arith) };
}

impl FrontendMessage for CopyFail {
    const FORMAT: FrontendMessageFormat = FrontendMessageFormat::CopyFail;

    ghost law = { λ copy. law_of (message.CopyFail (string_bytes copy.message)) };

    fn tag(&self) -> u8 {
        Self::FORMAT as u8
    }

    fn body_len(&self) -> usize {
        Ended(self.message.as_str()).len()
    }

    fn count_fault(&self) -> Option<ProtocolFault> {
        None
    }

    #[inline(always)]
    fn check_round_trip(&self) -> Result<(), ProtocolFault> {
        check_text(self.message.as_str())
    }

    fn room_for(&self, len: usize) -> usize {
        len
    }

    #[inline(always)]
    fn put_body<S: Sink>(&self, sink: &mut S) {
        Ended(self.message.as_str()).put(sink);
    }

    ghost use Rattle.std.proofs.Common.{arith};

    ghost enough = { λ copy h. Prim.grind (arith) };
}

/// As [`CopyFail`], with the text where the caller has it.
#[derive(Debug, Drop)]
pub struct CopyFailRef<'a>(pub &'a str);

impl<'a> Composed for CopyFailRef<'a> {
    type Body = Ended<&'a str>;

    const FORMAT: FrontendMessageFormat = FrontendMessageFormat::CopyFail;

    ghost law = { λ fail. law_of (message.CopyFail fail.0.now) };

    ghost use Rattle.std.specs.Prelude.{refl};

    ghost snug = { λ _. refl };

    fn letter(&self) -> u8 {
        <Self as Composed>::FORMAT as u8
    }

    // Refused with `TextHoldsNul` where it holds a NUL.
    #[inline(always)]
    fn check(&self) -> Result<(), ProtocolFault> {
        check_text(self.0)
    }

    #[inline(always)]
    fn parts(&self) -> Self::Body {
        Ended(self.0)
    }
}

impl Composed for CopyDone {
    type Body = NoBytes;

    const FORMAT: FrontendMessageFormat = FrontendMessageFormat::CopyDone;

    ghost law = { λ _. law_of message.CopyDone };

    ghost use Rattle.std.specs.Prelude.{refl};

    ghost snug = { λ _. refl };

    fn letter(&self) -> u8 {
        <Self as Composed>::FORMAT as u8
    }

    #[inline(always)]
    fn check(&self) -> Result<(), ProtocolFault> {
        Ok(())
    }

    #[inline(always)]
    fn parts(&self) -> Self::Body {
        NoBytes
    }
}
