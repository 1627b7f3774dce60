//! The messages of a COPY.

ghost use Rattle.std.specs.Prelude.{false};
ghost use Rattle.pg_server.specs.Backend.Message as messages;

use crate::backend::OutboundMessage;
use crate::backend::outbound_item::{OutboundItem, OutboundItems, too_many};
use pg_base::ProtocolFault;
use pg_base::io::Sink;
use pg_base::io::part::{Byte, Number16, Part, Slice, Then};
use std::marker::PhantomData;

// The most columns that a COPY can count: the count is signed, and a reader takes one below 0 for none.
const MAX_COLUMNS: usize = i16::MAX as usize;

/// Where the data of a COPY goes. As a number it is the tag of the message that says so.
#[derive(Clone, Copy, Debug, PartialEq, Eq)]
pub enum CopyDirection {
    /// To the server, by CopyInResponse.
    In = b'G' as isize,
    /// From the server, by CopyOutResponse.
    Out = b'H' as isize,
    /// Both ways, as in replication, by CopyBothResponse.
    Both = b'W' as isize,
}

/// How the data of a COPY is spelled: 0 means text, and 1 means binary. More than 32767 columns are
/// refused with `TooMany`. Documentation: "Message Formats", CopyInResponse (B), CopyOutResponse (B) and
/// CopyBothResponse (B).
#[derive(Drop)]
pub struct OutboundCopyResponse<'a> {
    /// Which of the three messages it is.
    pub direction: CopyDirection,
    /// The format of the data as a whole.
    pub format: i8,
    /// The format of each column.
    pub format_codes: &'a [i16],
}

impl<'a> OutboundMessage for OutboundCopyResponse<'a> {
    type Body = Then<Byte, Then<ColumnCount, OutboundItems<'a, i16, i16>>>;

    ghost message = { λ it. messages.CopyResponse it.direction it.format it.format_codes.now };

    fn tag(&self) -> u8 {
        self.direction as u8
    }

    #[inline(always)]
    fn parts(&self) -> Self::Body {
        let count = ColumnCount(self.format_codes.len());
        let columns = Then(count, OutboundItems(PhantomData, self.format_codes));
        Then(Byte(self.format.cast_unsigned()), columns)
    }
}

/// How many columns follow, as a signed number of two bytes. More than 32767 are refused with `TooMany`.
#[derive(Clone, Copy)]
pub struct ColumnCount(pub usize);

impl Part for ColumnCount {
    ghost use Rattle.pg_server.specs.Backend.OutboundItem.{count_part, max_signed};

    ghost part = { λ it. count_part max_signed it.0 };

    #[inline(always)]
    fn len(&self) -> usize {
        2
    }

    #[inline(always)]
    fn fault(&self) -> Option<ProtocolFault> {
        too_many(self.0, MAX_COLUMNS)
    }

    #[inline(always)]
    fn put<S: Sink>(&self, sink: &mut S) {
        sink.put_u16(self.0 as u16);
    }
}

impl OutboundItem for i16 {
    type Parts = Number16;

    ghost use Rattle.std.specs.Prelude.{ℤ};
    ghost use Rattle.pg_format.specs.Format.Parts.{be_i16, FitsSigned};

    ghost Value = { ℤ };

    ghost value = { λ number. number };

    ghost format = { be_i16 };

    ghost is_broken = { λ _. false };

    ghost IsInRange = { λ number. FitsSigned 2 number };

    #[inline(always)]
    #[tactic(auto, using(crate::proofs::BackendNumbersLemmas::complement_16, crate::proofs::BackendNumbersLemmas::fits_16))]
    fn parts(&self) -> Number16 {
        Number16(self.cast_unsigned())
    }
}

/// A part of the stream of a COPY. Documentation: "Message Formats", CopyData (F & B).
#[derive(Drop)]
pub struct OutboundCopyData<'a>(pub &'a [u8]);

impl<'a> OutboundMessage for OutboundCopyData<'a> {
    type Body = Slice<'a>;

    ghost message = { λ copied. messages.CopyData copied.0.now };

    fn tag(&self) -> u8 {
        b'd'
    }

    #[inline(always)]
    fn parts(&self) -> Self::Body {
        Slice(self.0)
    }
}
