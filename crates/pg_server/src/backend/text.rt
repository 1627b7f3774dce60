//! Texts that a NUL ends, and that hold no other.

ghost use Rattle.std.specs.Prelude.{◌≡◌};
ghost use Rattle.pg_server.specs.Backend.OutboundItem.{holds_nul, text_part};

use crate::backend::outbound_item::{OutboundItem, nul_fault};
use pg_base::ProtocolFault;
use pg_base::io::part::Part;
use pg_base::io::{Ended, Sink};
use pg_format::items;
use pg_format::text::text_at;

/// A text and the NUL that ends it. One that holds a NUL is refused with `TextHoldsNul`.
#[derive(Clone, Copy)]
pub struct NulEnded<'a>(pub &'a [u8]);

impl Part for NulEnded<'_> {
    ghost part = { λ it. text_part it.0.now };

    #[inline(always)]
    fn len(&self) -> usize {
        Ended(self.0).len()
    }

    #[inline(always)]
    fn fault(&self) -> Option<ProtocolFault> {
        nul_fault(holds_nul(self.0))
    }

    #[inline(always)]
    fn put<S: Sink>(&self, sink: &mut S) {
        sink.put_text(self.0);
    }
}

impl<'a> items::Item<'a> for NulEnded<'a> {
    ghost use Rattle.std.specs.Prelude.{ℕ, List};
    ghost use Rattle.pg_format.specs.Format.Parts.{until_nul};

    ghost Shown = { List ℕ };

    ghost shown = { λ it. it.0.now };

    ghost format = { until_nul };

    #[inline(always)]
    fn item_at(body: &'a [u8], at: usize) -> Result<(NulEnded<'a>, usize), ProtocolFault> {
        let (text, end) = text_at(body, at)?;
        Ok((NulEnded(text), end))
    }
}

impl<'a> OutboundItem for &'a [u8] {
    type Parts = NulEnded<'a>;

    ghost use Rattle.std.specs.Prelude.{ℕ, List};
    ghost use Rattle.pg_format.specs.Format.Parts.{until_nul};
    ghost use Rattle.pg_server.specs.Backend.OutboundItem as items;

    ghost Value = { List ℕ };

    ghost value = { λ text. text.now };

    ghost format = { until_nul };

    ghost is_broken = { items.holds_nul };

    ghost IsInRange = { λ _. Unit {0} };

    #[inline(always)]
    fn parts(&self) -> NulEnded<'a> {
        NulEnded(self)
    }
}

/// Whether a NUL is among the bytes.
pub(crate) fn holds_nul(bytes: &[u8]) -> bool
    ensures { result ≡ holds_nul bytes.now }
{
    bytes.contains(&0)
}
