//! A row of values.

mod cell;
mod cell_end;
mod ends;
mod row;
mod row_index;
mod row_reader;

ghost use Rattle.std.specs.Prelude.{◌≡◌, ◌==◌, ℕ, ◌<◌, ◌≤◌, List, Option, length, Some, IfOk, slice_get};
ghost use Rattle.std.specs.Option.{option_copied};
ghost use Rattle.pg_base.specs.declared.format.BackendMessageFormat.TheVariants as formats;
ghost use Rattle.pg_receive.specs.DataRow.{DecodesEnds, RowNeedsNoMemory};
ghost use Rattle.pg_receive.specs.DataRow.CellEnd.{first_cell, EndsRise};

use crate::message::BackendMessage;
use bytes::Bytes;
pub use cell::{Cell, cell_at};
use cell_end::CellEnd;
use pg_base::io::MAX_BODY;
use pg_base::{BackendMessageFormat, Error};
use pg_format::items::Items;
use row::cell_in;
pub use row::{Cells, Row};
pub use row_index::RowIndex;
use row_index::read_ends;
pub use row_reader::RowReader;
use smallvec::SmallVec;
use std::alloc::Global;
use std::marker::Model;

// Where the first cell begins, after the count.
const FIRST_CELL: usize = 2;

// The bytes of a cell's length.
const CELL_LENGTH: usize = 4;

/// The values of a row, each as bytes in the format that was asked for, or NULL. They are
/// borrowed from the body of the message, which the row keeps; a [`RowIndex`] reads rows from bodies
/// that stay with the caller. Documentation: "Message Formats", DataRow (B).
#[derive(Drop)]
pub struct DataRow {
    storage: Bytes,
    ends: SmallVec<CellEnd, 8>,
}

impl Model for DataRow {
    ghost use Rattle.std.specs.Prelude.{ℕ, List, Option, length};
    ghost use Rattle.pg_receive.specs.DataRow.CellEnd.{cells_in, first_cell, EndsRise};

    ghost Value = { List (Option (List ℕ)) };

    ghost view = { λ row. cells_in row.storage row.ends.items };

    ghost invariant = { λ row. EndsRise first_cell row.ends.items (length row.storage) };
}

impl DataRow {
    /// How many cells the row has.
    pub fn len(&self) -> usize
        ensures { result ≡ length self.now }
    {
        self.ends.len()
    }

    /// Whether the row has no cells.
    pub fn is_empty(&self) -> bool
        ensures { result ≡ (length self.now == 0) }
    {
        self.len() == 0
    }

    /// The value of the cell at an index below [`DataRow::len`], and nothing where it is NULL.
    pub fn get(&self, index: usize) -> Option<&[u8]>
        requires { index < length self.now }
        ensures { slice_get self.now index ≡ Some (option_copied result) }
    {
        cell_in(self.storage.as_slice(), self.ends.as_slice(), index)
    }

    /// The row, borrowed: for what takes rows however they were read.
    pub fn as_row(&self) -> Row<'_>
        ensures { result ≡ self.now }
    {
        Row::new(self.storage.as_slice(), self.ends.as_slice())
    }
}

impl BackendMessage for DataRow {
    ghost use Rattle.std.specs.Prelude.{ℕ, List, Option};
    ghost use Rattle.pg_format.specs.Messages.{data_row};
    ghost use Rattle.pg_format.proofs.FormatLaws.FromServer.{lawful_data_row};
    ghost use Rattle.pg_receive.specs.DataRow.{RowNeedsNoMemory};

    const FORMAT: BackendMessageFormat = BackendMessageFormat::DataRow;

    ghost FORMAT = { formats.DataRow };

    ghost Shown = { List (Option (List ℕ)) };

    ghost shown = { λ row. row };

    ghost format = { data_row };

    ghost NeedsNoMemory = { RowNeedsNoMemory };

    // Inlined, so that neither the body nor the ends are copied on their way.
    #[inline(always)]
    fn decode_body(alloc: Global, buf: Bytes) -> Result<Self, Error> {
        let ends = ends_of(alloc, buf.as_slice())?;
        Ok(DataRow { storage: buf, ends })
    }

    ghost lawful = { lawful_data_row };
}

// Where each cell of the body ends. Those of a row of up to eight cells lie in the list itself, and
// take no memory of their own.
fn ends_of(alloc: Global, body: &[u8]) -> Result<SmallVec<CellEnd, 8>, Error>
    requires { length body.now ≤ MAX_BODY }
    ensures answer { DecodesEnds RowNeedsNoMemory (λ ends. ends.items) body.now result }
    ensures rise { IfOk result (λ ends. EndsRise first_cell ends.items (length body.now)) }
{
    let cells = Items::begin(body, CELL_LENGTH)?;
    if cells.len() > 8 {
        let mut many = Vec::new(alloc);
        read_ends(body, &mut many)?;
        return Ok(SmallVec::from_vec(many));
    }
    let mut ends = SmallVec::new(alloc);
    cells.read_all_quickly::<Cell<'_>, SmallVec<CellEnd, 8>>(CELL_LENGTH, &mut ends)?;
    Ok(ends)
}
