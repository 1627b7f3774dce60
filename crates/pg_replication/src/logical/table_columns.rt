//! The columns of a table.

ghost use Rattle.std.specs.Prelude.{◌≡◌, ◌==◌, ◌^◌, ◌<◌, ◌≤◌, length, map};
ghost use Rattle.std.specs.Iterator.{YieldsFirstBy, item_count};
ghost use Rattle.pg_format.proofs.FormatLaws.Logical.{total_table_column};
ghost use Rattle.pg_format.specs.Received.{max_body};
ghost use Rattle.pg_format.specs.Listed.{values_in};

use crate::logical::TableColumn;
use crate::logical::listed::{Listed, ListedItems};
use crate::logical::table_column::TableColumnFields;
use pg_base::ProtocolFault;
use pg_base::io::part::{Part, Then};
use pg_base::io::{Sink, u16_at};
use pg_format::items::{Discard, Item, Items};
use pg_server::backend::{Count, OutboundItem};

/// The columns of a table in order, borrowed from their message or from a caller. A copy is walked on its own.
#[derive(Clone, Copy)]
pub struct TableColumns<'a> {
    // Those of a message, from the next column on.
    bytes: &'a [u8],
    left: usize,
    // Those of a caller, after them.
    given: &'a [TableColumn<'a>],
    ghost short: { length bytes.now ≤ max_body },
    ghost whole: { length (values_in total_table_column left bytes.now) ≡ left },
    ghost few: { left < 2 ^ 32 },
}

impl<'a> TableColumns<'a> {
    ghost use Rattle.pg_replication.specs.Logical.TableColumns.{columns_shown, shown_column};

    /// These columns, to be written.
    pub fn of(given: &'a [TableColumn<'a>]) -> TableColumns<'a>
        ensures { columns_shown result ≡ map shown_column given.now }
    {
        TableColumns {
            bytes: &[],
            left: 0,
            given,
        }
    }

    /// How many columns are left.
    pub fn len(&self) -> usize
        ensures { result ≡ length (columns_shown self.now) }
    {
        self.left + self.given.len()
    }

    /// Whether no columns are left.
    pub fn is_empty(&self) -> bool
        ensures { result ≡ (length (columns_shown self.now) == 0) }
    {
        self.len() == 0
    }
}

impl<'a> Iterator for TableColumns<'a> {
    ghost use Rattle.pg_replication.specs.Logical.TableColumns.{columns_shown, shown_column};

    type Item = TableColumn<'a>;

    ghost next_gives = { YieldsFirstBy shown_column columns_shown };

    ghost remaining = { item_count columns_shown };

    fn next(&mut self) -> Option<TableColumn<'a>> {
        if self.left == 0 {
            let (column, given) = self.given.split_first()?;
            *self = TableColumns::of(given);
            return Some(*column);
        }
        let Ok((column, end)) = TableColumn::item_at(self.bytes, 0) else {
            return None;
        };
        *self = TableColumns {
            bytes: &self.bytes[end..],
            left: self.left - 1,
            given: self.given,
        };
        Some(column)
    }
}

impl<'a> Item<'a> for TableColumns<'a> {
    ghost use Rattle.std.specs.Prelude.{List};
    ghost use Rattle.pg_format.specs.Format.Lists.{counted};
    ghost use Rattle.pg_format.specs.Logical as page;
    ghost use Rattle.pg_replication.specs.Logical.TableColumns.{columns_shown};

    ghost Shown = { List page.Column };

    ghost shown = { columns_shown };

    ghost format = { counted page.column };

    fn item_at(body: &'a [u8], at: usize) -> Result<(TableColumns<'a>, usize), ProtocolFault> {
        let left = usize::from(u16_at(body, at)?);
        let items = Items::begin_at(body, at + 2, left);
        let end = items.read_all::<TableColumn, Discard>(&mut Discard)?;
        let columns = TableColumns {
            bytes: &body[at + 2..],
            left,
            given: &[],
        };
        Ok((columns, end))
    }
}

impl<'a> Listed for TableColumns<'a> {
    ghost use Rattle.pg_format.specs.Logical as page;
    ghost use Rattle.pg_replication.specs.Logical.TableColumns.{columns_shown};
    ghost use Rattle.pg_replication.specs.Logical.Encode.{has_nul, IsColumnInRange};

    type Parts = TableColumnFields<'a>;

    ghost Value = { page.Column };

    ghost values = { columns_shown };

    ghost format = { page.column };

    ghost is_broken = { has_nul };

    ghost IsInRange = { IsColumnInRange };

    #[inline(always)]
    fn step(&mut self) -> Option<TableColumnFields<'a>> {
        match self.next() {
            Some(column) => Some(OutboundItem::parts(&column)),
            None => None,
        }
    }
}

impl Part for TableColumns<'_> {
    ghost use Rattle.pg_replication.specs.Logical.TableColumns.{columns_shown};
    ghost use Rattle.pg_replication.specs.Logical.Encode.{columns_part};

    ghost part = { λ it. columns_part (columns_shown it) };

    fn len(&self) -> usize {
        Then(Count(self.len()), ListedItems(*self)).len()
    }

    fn fault(&self) -> Option<ProtocolFault> {
        Then(Count(self.len()), ListedItems(*self)).fault()
    }

    fn put<S: Sink>(&self, sink: &mut S) {
        Then(Count(self.len()), ListedItems(*self)).put(sink);
    }
}
