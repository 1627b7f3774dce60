//! Lists that are written item by item.

ghost use Rattle.std.specs.Prelude.{◌≡◌, Bool, List, [], IfNone, IfSome};
ghost use Rattle.pg_format.specs.Format.{Format};
ghost use Rattle.pg_replication.specs.Logical.Listed.{IsFirst};

use pg_base::ProtocolFault;
use pg_base::io::Sink;
use pg_base::io::part::Part;

/// A list that is walked by a copy.
pub(crate) trait Listed: Copy {
    /// The parts of an item.
    type Parts: Part;

    ghost Value: { Type 0 };

    /// What its items say.
    ghost values: { Self → List Value };

    /// How that is written.
    ghost format: { Format Value };

    /// Whether a text of an item holds a NUL.
    ghost is_broken: { Value → Bool };

    /// The numbers of an item are in the ranges of their types.
    ghost IsInRange: { Value → Type 0 };

    /// The parts of the first item, which is taken away, where one is left.
    fn step(&mut self) -> Option<Self::Parts>
        ensures none { IfNone result (values self.old ≡ []) }
        ensures some { IfSome result (λ it. IsFirst format is_broken IsInRange (values self.old) (values self.new) (Self.Parts.part it)) };
}

/// The items of a list, one after the other.
#[derive(Clone, Copy)]
pub(crate) struct ListedItems<L>(pub L);

impl<L: Listed> Part for ListedItems<L> {
    ghost use Rattle.pg_server.specs.Backend.OutboundItem.{items_part};

    ghost part = { λ it. items_part L.format L.is_broken L.IsInRange (L.values it.0) };

    fn len(&self) -> usize {
        let mut list = self.0;
        let mut len: usize = 0;
        while let Some(item) = list.step() {
            len = len.saturating_add(item.len());
        }
        len
    }

    fn fault(&self) -> Option<ProtocolFault> {
        let mut list = self.0;
        while let Some(item) = list.step() {
            if item.fault().is_some() {
                return Some(ProtocolFault::TextHoldsNul);
            }
        }
        None
    }

    #[inline(always)]
    fn put<S: Sink>(&self, sink: &mut S) {
        let mut list = self.0;
        while let Some(item) = list.step() {
            item.put(sink);
        }
    }
}
