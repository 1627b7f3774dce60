//! Where the cells of a row end, found in its body.

ghost use Rattle.std.specs.Prelude.{◌≡◌, ◌≤◌, length, IsErrOf, OnOk, vec_capacity};
ghost use Rattle.pg_base.specs.declared.error.Error.TheVariants.{OutOfMemory};
ghost use Rattle.pg_receive.specs.DataRow.{DecodesEnds};
ghost use Rattle.pg_receive.specs.DataRow.CellEnd.{first_cell, EndsRise};
ghost use Rattle.pg_format.specs.Messages.{data_row};
ghost use Rattle.pg_receive.specs.CountedItems.{CountsMoreThan, ItemsNeedNoMemory};
ghost use Rattle.pg_format.specs.Received.{DecodesBody};

use crate::message::data_row::cell::Cell;
use crate::message::data_row::cell_end::CellEnd;
use crate::message::data_row::{CELL_LENGTH, Row};
use pg_base::Error;
use pg_base::io::MAX_BODY;
use pg_format::items::Items;
use std::alloc::Global;
use std::marker::Model;

/// Reads rows from bodies that stay with the caller, one after the other.
///
/// It keeps where the cells of the last row end, and so asks for memory only for a row of more cells
/// than it has room for. In a contract it is the number of cells that it has room for.
#[derive(Drop)]
pub struct RowIndex {
    ends: Vec<CellEnd>,
}

impl Model for RowIndex {
    ghost use Rattle.std.specs.Prelude.{ℕ, vec_capacity};

    ghost Value = { ℕ };

    ghost view = { λ index. vec_capacity index.ends };
}

impl RowIndex {
    /// An index without room.
    pub fn new(alloc: Global) -> RowIndex
        ensures { result ≡ 0 }
    {
        RowIndex {
            ends: Vec::new(alloc),
        }
    }

    /// Reads a row from the body of a DataRow, of at most [`MAX_BODY`] bytes. Its value and its faults
    /// are those of [`DataRow`](crate::message::DataRow).
    pub fn read<'a>(&'a mut self, body: &'a [u8]) -> Result<Row<'a>, Error>
        requires { length body.now ≤ MAX_BODY }
        ensures answer { DecodesBody data_row (ItemsNeedNoMemory 4 0) (λ row. row) body.now result }
        // Memory runs out only where the body counts more cells than there is room for.
        ensures memory { IsErrOf result OutOfMemory → CountsMoreThan self.old body.now }
    {
        read_ends(body, &mut self.ends)?;
        Ok(Row::new(body, self.ends.as_slice()))
    }
}

// Where each cell of the body ends, in place of what the list had.
pub(super) fn read_ends(body: &[u8], ends: &mut Vec<CellEnd>) -> Result<(), Error>
    requires { length body.now ≤ MAX_BODY }
    ensures answer { DecodesEnds (ItemsNeedNoMemory 4 0) (λ _. ends.new.items) body.now result }
    ensures rise { OnOk result (EndsRise first_cell ends.new.items (length body.now)) }
    ensures memory { IsErrOf result OutOfMemory → CountsMoreThan (vec_capacity ends.old) body.now }
{
    let cells = Items::begin(body, CELL_LENGTH)?;
    ends.clear();
    ends.reserve_exact(cells.len())?;
    cells.read_all_quickly::<Cell<'_>, Vec<CellEnd>>(CELL_LENGTH, ends)?;
    Ok(())
}
