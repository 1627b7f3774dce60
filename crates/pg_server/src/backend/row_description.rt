//! The columns of a result.

ghost use Rattle.pg_server.specs.Backend.OutboundItem.{said};
ghost use Rattle.pg_server.specs.Backend.Message as messages;
ghost use Rattle.pg_server.specs.Backend.RowDescription.{column_of};

use crate::backend::OutboundMessage;
use crate::backend::outbound_item::{AsOutboundItem, Count, Counted, OutboundItem, OutboundItems};
use crate::backend::text::NulEnded;
use pg_base::io::Oid;
use pg_base::io::part::{Number16, Number32, Then, ThenFirst};
use std::marker::PhantomData;

/// A column of a result. Documentation: "Message Formats", RowDescription (B).
#[derive(Clone, Copy, Drop)]
pub struct OutboundColumn<'a> {
    /// Its name. A NUL is refused with `TextHoldsNul`.
    pub name: &'a [u8],
    /// The table that it is of, 0 for none.
    pub table: Oid,
    /// Its number in the table, 0 for none.
    pub attribute: i16,
    /// Its type.
    pub data_type: Oid,
    /// The bytes of a value; below 0 where they differ.
    pub size: i16,
    /// What the type needs beside, or -1.
    pub modifier: i32,
    /// The format of its values: 0 is text and 1 binary.
    pub format: i16,
}

/// The columns of a result. More than 65535 are refused with `TooMany`. Documentation: "Message
/// Formats", RowDescription (B).
#[derive(Drop)]
pub struct OutboundRowDescription<'a, C = OutboundColumn<'a>> {
    pub columns: &'a [C],
}

impl<'a, C: AsOutboundItem<OutboundColumn<'a>>> OutboundMessage for OutboundRowDescription<'a, C> {
    type Body = Counted<'a, OutboundColumn<'a>, C>;

    ghost message = { λ it. messages.RowDescription (said C.item column_of it.columns.now) };

    fn tag(&self) -> u8 {
        b'T'
    }

    #[inline(always)]
    fn parts(&self) -> Self::Body {
        Then(
            Count(self.columns.len()),
            OutboundItems(PhantomData, self.columns),
        )
    }
}

/// The parts of a column from its type on: the number, the size and the modifier of the type, and the format.
pub type TypeParts = Then<Number32, Then<Number16, Then<Number32, Number16>>>;

impl<'a> OutboundItem for OutboundColumn<'a> {
    type Parts = ThenFirst<NulEnded<'a>, Then<Number32, Then<Number16, TypeParts>>>;

    ghost use Rattle.pg_format.specs.Messages as page;
    ghost use Rattle.pg_server.specs.Backend.OutboundItem as items;
    ghost use Rattle.pg_server.specs.Backend.RowDescription.{column_of, IsColumnInRange};

    ghost Value = { page.Column };

    ghost value = { column_of };

    ghost format = { page.column };

    ghost is_broken = { λ column. items.holds_nul column.name };

    ghost IsInRange = { IsColumnInRange };

    #[inline(always)]
    fn parts(&self) -> Self::Parts {
        let modifier = Number32(self.modifier.cast_unsigned());
        let format = Number16(self.format.cast_unsigned());
        let size = Number16(self.size.cast_unsigned());
        let data_type = Then(
            Number32(self.data_type.0),
            Then(size, Then(modifier, format)),
        );
        let attribute = Number16(self.attribute.cast_unsigned());
        let table = Then(Number32(self.table.0), Then(attribute, data_type));
        ThenFirst(NulEnded(self.name), table)
    }
}
