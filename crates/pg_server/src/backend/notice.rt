//! Errors and notices.

ghost use Rattle.pg_server.specs.Backend.OutboundItem.{said};
ghost use Rattle.pg_server.specs.Backend.Message as messages;
ghost use Rattle.pg_server.specs.Backend.Notice.{field_of};

use crate::backend::OutboundMessage;
use crate::backend::outbound_item::{AsOutboundItem, OutboundItem, OutboundItems, nul_fault};
use crate::backend::text::NulEnded;
use pg_base::ProtocolFault;
use pg_base::io::Sink;
use pg_base::io::part::{Byte, Part, Then, ThenFirst};
use std::marker::PhantomData;

/// Whether it ends the command. As a number it is the tag of the message.
#[derive(Clone, Copy, Debug, PartialEq, Eq)]
pub enum NoticeKind {
    /// ErrorResponse.
    Error = b'E' as isize,
    /// NoticeResponse.
    Notice = b'N' as isize,
}

/// A field of an error or a notice. Documentation: "Error and Notice Message Fields".
#[derive(Clone, Copy, Drop)]
pub struct OutboundNoticeField<'a> {
    /// The letter of what the field says. A 0 is refused with `TextHoldsNul`, since it would end the
    /// fields.
    pub letter: u8,
    /// What it says. A NUL is refused with `TextHoldsNul`.
    pub text: &'a [u8],
}

/// An error or a notice, by its fields in order. Documentation: "Message Formats", ErrorResponse (B) and
/// NoticeResponse (B).
#[derive(Drop)]
pub struct OutboundNotice<'a, F = OutboundNoticeField<'a>> {
    /// Which of the two messages it is.
    pub kind: NoticeKind,
    /// The fields: a client asks for a severity, a code and a message.
    pub fields: &'a [F],
}

impl<'a, F: AsOutboundItem<OutboundNoticeField<'a>>> OutboundMessage for OutboundNotice<'a, F> {
    type Body = ThenFirst<OutboundItems<'a, OutboundNoticeField<'a>, F>, Byte>;

    ghost message = { λ it. messages.Notice it.kind (said F.item field_of it.fields.now) };

    fn tag(&self) -> u8 {
        self.kind as u8
    }

    #[inline(always)]
    fn parts(&self) -> Self::Body {
        ThenFirst(OutboundItems(PhantomData, self.fields), Byte(0))
    }
}

impl<'a> OutboundItem for OutboundNoticeField<'a> {
    type Parts = Then<Letter, NulEnded<'a>>;

    ghost use Rattle.std.specs.Prelude.{◌<◌};
    ghost use Rattle.pg_format.specs.Messages as page;
    ghost use Rattle.pg_format.specs.Notices.{Field};
    ghost use Rattle.pg_server.specs.Backend.Notice.{field_of, breaks_fields};

    ghost Value = { Field };

    ghost value = { field_of };

    ghost format = { page.field };

    ghost is_broken = { breaks_fields };

    ghost IsInRange = { λ field. field.0 < 256 };

    #[inline(always)]
    fn parts(&self) -> Self::Parts {
        Then(Letter(self.letter), NulEnded(self.text))
    }
}

/// The letter of a field. A 0 is refused with `TextHoldsNul`.
#[derive(Clone, Copy)]
pub struct Letter(pub u8);

impl Part for Letter {
    ghost use Rattle.pg_server.specs.Backend.Notice.{letter_part};

    ghost part = { λ it. letter_part it.0 };

    #[inline(always)]
    fn len(&self) -> usize {
        1
    }

    #[inline(always)]
    fn fault(&self) -> Option<ProtocolFault> {
        nul_fault(self.0 == 0)
    }

    #[inline(always)]
    fn put<S: Sink>(&self, sink: &mut S) {
        sink.put_u8(self.0);
    }
}
