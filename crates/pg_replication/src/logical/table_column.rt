//! A column of a table.

ghost use Rattle.pg_format.specs.Logical as page;
ghost use Rattle.pg_replication.specs.Logical.TableColumns.{shown_column};

use pg_base::ProtocolFault;
use pg_base::io::part::{Number32, Then};
use pg_format::field::{Number8, Signed32};
use pg_format::items::Item;
use pg_server::backend::{NulEnded, OutboundItem};

/// A column of a table, in the layout of C. Documentation: "Logical Replication Message Formats", Relation.
#[repr(C)]
#[derive(Clone, Copy, Debug, PartialEq, Eq)]
pub struct TableColumn<'a> {
    /// 1 where the column is a part of the key, else 0.
    pub flags: u8,
    /// Its name.
    pub name: &'a [u8],
    /// The number of its type.
    pub type_id: u32,
    /// The type's modifier; its meaning depends on the type.
    pub type_modifier: i32,
}

/// What is said of a column, as it stands in a message.
pub type TableColumnFields<'a> = Then<Number8, Then<NulEnded<'a>, Then<Number32, Signed32>>>;

impl<'a> Item<'a> for TableColumn<'a> {
    ghost Shown = { page.Column };

    ghost shown = { shown_column };

    ghost format = { page.column };

    fn item_at(body: &'a [u8], at: usize) -> Result<(TableColumn<'a>, usize), ProtocolFault> {
        let (fields, end) = <TableColumnFields<'a>>::item_at(body, at)?;
        let Then(
            Number8(flags),
            Then(NulEnded(name), Then(Number32(type_id), Signed32(type_modifier))),
        ) = fields;
        let column = TableColumn {
            flags,
            name,
            type_id,
            type_modifier,
        };
        Ok((column, end))
    }
}

impl<'a> OutboundItem for TableColumn<'a> {
    type Parts = TableColumnFields<'a>;

    ghost use Rattle.pg_replication.specs.Logical.Encode.{has_nul, IsColumnInRange};

    ghost Value = { page.Column };

    ghost value = { shown_column };

    ghost format = { page.column };

    ghost is_broken = { has_nul };

    ghost IsInRange = { IsColumnInRange };

    #[inline(always)]
    fn parts(&self) -> TableColumnFields<'a> {
        let type_fields = Then(Number32(self.type_id), Signed32(self.type_modifier));
        Then(Number8(self.flags), Then(NulEnded(self.name), type_fields))
    }
}
