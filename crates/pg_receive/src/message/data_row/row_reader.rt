//! The cells of a row, read one by one.

ghost use Rattle.std.specs.Prelude.{◌≡◌, ◌==◌, ◌≤◌, length, drop, option_copied, IfOk, IfErr};
ghost use Rattle.pg_format.specs.Format.Nullable.{cell};
ghost use Rattle.pg_format.specs.Items.{IsCountFault, Begins, NextBreaks, GivesNext};

use crate::message::data_row::CELL_LENGTH;
use crate::message::data_row::cell::Cell;
use pg_base::ProtocolFault;
use pg_base::io::MAX_BODY;
use pg_format::items::Items;
use std::marker::Model;

/// Reads the cells of a row from its body, each when it is asked for: it goes over the body once, and
/// asks for no memory. A fault is found at the cell that has it, where
/// [`RowIndex`](crate::message::RowIndex) finds it before the first cell is given.
///
/// In a contract it is how far the body is read, and how many cells are left.
/// Documentation: "Message Formats", DataRow (B).
#[derive(Drop)]
pub struct RowReader<'a> {
    cells: Items<'a>,
}

impl<'a> Model for RowReader<'a> {
    ghost use Rattle.pg_format.specs.Items.{Reading};

    ghost Value = { Reading };

    ghost view = { λ reader. reader.cells };
}

impl<'a> RowReader<'a> {
    /// Begins with the body of a DataRow, of at most [`MAX_BODY`] bytes. Refused where the count is
    /// missing, or the body is shorter than so many cells that are NULL.
    pub fn new(body: &'a [u8]) -> Result<RowReader<'a>, ProtocolFault>
        requires { length body.now ≤ MAX_BODY }
        ensures row { IfOk result (Begins 4 body.now) }
        ensures fault { IfErr result (IsCountFault 4 body.now) }
    {
        let cells = Items::begin(body, CELL_LENGTH)?;
        Ok(RowReader { cells })
    }

    /// How many cells are left.
    pub fn len(&self) -> usize
        ensures { result ≡ self.now.left }
    {
        self.cells.len()
    }

    /// Whether no cells are left.
    pub fn is_empty(&self) -> bool
        ensures { result ≡ (self.now.left == 0) }
    {
        self.len() == 0
    }

    /// The next cell, nothing for NULL; or nothing where none is left. After a fault the reader is as
    /// it was.
    pub fn next_cell(&mut self) -> Result<Option<Option<&'a [u8]>>, ProtocolFault>
        ensures cell { GivesNext cell (λ value. option_copied value) self.old self.new result }
        ensures fault { IfErr result (NextBreaks cell self.old self.new) }
    {
        match self.cells.next::<Cell<'a>>()? {
            Some(Cell(value)) => Ok(Some(value)),
            None => Ok(None),
        }
    }

    /// What follows the cells that were read: nothing at the end, where no cell is left and the server
    /// sent what it counted.
    pub fn rest(&self) -> &'a [u8]
        ensures { result.now ≡ drop self.now.at self.now.body }
    {
        self.cells.rest()
    }
}
