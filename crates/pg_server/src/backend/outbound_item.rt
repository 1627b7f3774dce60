//! Lists in a body, one item after the other.

ghost use Rattle.std.specs.Prelude.{◌≡◌, Bool};
ghost use Rattle.pg_format.specs.Format.{Format};
ghost use Rattle.pg_server.specs.Backend.OutboundItem.{IsItemPart, too_many, max_unsigned, nul_fault};

use pg_base::ProtocolFault;
use pg_base::io::Sink;
use pg_base::io::part::{Part, Then};
use std::marker::PhantomData;

// The most items that an unsigned count of two bytes can say.
const MAX_UNSIGNED: usize = u16::MAX as usize;

/// What stands in a list of a body.
pub trait OutboundItem: Copy {
    /// Its parts.
    type Parts: Part;

    ghost Value: { Type 0 };

    /// What it says.
    ghost value: { Self → Value };

    /// How that is written.
    ghost format: { Format Value };

    /// Whether a text of it holds a NUL, or it would end the list.
    ghost is_broken: { Value → Bool };

    /// Its numbers are in the ranges of their types.
    ghost IsInRange: { Value → Type 0 };

    /// Its parts, which have a fault where it is broken.
    fn parts(&self) -> Self::Parts
        ensures { IsItemPart format is_broken IsInRange (value self.now) (Self.Parts.part result) };
}

/// What a caller has in the place of an item.
pub trait AsOutboundItem<I: OutboundItem> {
    /// The item.
    ghost item: { Self → I };

    /// The item.
    fn as_item(&self) -> I
        ensures { result ≡ item self.now };
}

impl<I: OutboundItem> AsOutboundItem<I> for I {
    ghost item = { λ item. item };

    #[inline(always)]
    fn as_item(&self) -> I {
        *self
    }
}

/// Items, one after the other.
#[derive_where(Clone, Copy)]
pub struct OutboundItems<'a, I, T>(pub PhantomData<I>, pub &'a [T]);

impl<I: OutboundItem, T: AsOutboundItem<I>> Part for OutboundItems<'_, I, T> {
    ghost use Rattle.pg_server.specs.Backend.OutboundItem.{items_part, said};

    ghost part = { λ x. items_part I.format I.is_broken I.IsInRange (said T.item I.value x.1.now) };

    fn len(&self) -> usize {
        let mut len: usize = 0;
        for item in self.1 {
            len = len.saturating_add(item.as_item().parts().len());
        }
        len
    }

    #[tactic(auto, using(crate::proofs::BackendOutboundItemLemmas::any_at, crate::proofs::BackendOutboundItemLemmas::broken))]
    fn fault(&self) -> Option<ProtocolFault> {
        for item in self.1 {
            if item.as_item().parts().fault().is_some() {
                return Some(ProtocolFault::TextHoldsNul);
            }
        }
        None
    }

    #[inline(always)]
    fn put<S: Sink>(&self, sink: &mut S) {
        for item in self.1 {
            item.as_item().parts().put(sink);
        }
    }
}

/// Items after their count.
pub type Counted<'a, I, T> = Then<Count, OutboundItems<'a, I, T>>;

/// How many items follow, in two bytes. More than 65535 are refused with `TooMany`.
#[derive(Clone, Copy)]
pub struct Count(pub usize);

impl Part for Count {
    ghost use Rattle.pg_server.specs.Backend.OutboundItem.{count_part};

    ghost part = { λ it. count_part max_unsigned it.0 };

    #[inline(always)]
    fn len(&self) -> usize {
        2
    }

    #[inline(always)]
    fn fault(&self) -> Option<ProtocolFault> {
        too_many(self.0, MAX_UNSIGNED)
    }

    #[inline(always)]
    fn put<S: Sink>(&self, sink: &mut S) {
        sink.put_u16(self.0 as u16);
    }
}

/// The fault of a list that has more items than can be counted.
#[inline(always)]
pub(crate) fn too_many(count: usize, most: usize) -> Option<ProtocolFault>
    ensures { result ≡ too_many most count }
{
    if count > most {
        return Some(ProtocolFault::TooMany(count));
    }
    None
}

/// The fault of texts of which one holds a NUL.
#[inline(always)]
pub(crate) fn nul_fault(holds: bool) -> Option<ProtocolFault>
    ensures { result ≡ nul_fault holds }
{
    if holds {
        return Some(ProtocolFault::TextHoldsNul);
    }
    None
}
