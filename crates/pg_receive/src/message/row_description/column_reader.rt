//! The columns of a result, read one by one.

ghost use Rattle.std.specs.Prelude.{◌≡◌, ◌==◌, ◌≤◌, length, drop, IfOk, IfErr};
ghost use Rattle.pg_format.specs.Messages.{column};
ghost use Rattle.pg_format.specs.Items.{IsCountFault, Begins, NextBreaks, GivesNext};
ghost use Rattle.pg_receive.specs.RowDescription.Columns.{column_of_ref};
ghost use Rattle.pg_receive.specs.RowDescription.Raw.{column_of_raw, raw_column};

use crate::message::row_description::LEAST_COLUMN;
use crate::message::row_description::columns::FieldRef;
use crate::message::row_description::raw_columns::RawFieldRef;
use pg_base::ProtocolFault;
use pg_base::io::MAX_BODY;
use pg_format::items::Items;
use std::marker::Model;

/// Reads the columns of a result from their body, each when it is asked for: it goes over the body
/// once, and makes no String. A fault is found at the column that has it, where
/// [`Columns`](crate::message::Columns) finds it before the first column is given.
///
/// In a contract it is how far the body is read, and how many columns are left.
/// Documentation: "Message Formats", RowDescription (B).
#[derive(Drop)]
pub struct ColumnReader<'a> {
    columns: Items<'a>,
}

impl<'a> Model for ColumnReader<'a> {
    ghost use Rattle.pg_format.specs.Items.{Reading};

    ghost Value = { Reading };

    ghost view = { λ reader. reader.columns };
}

impl<'a> ColumnReader<'a> {
    /// Begins with the body of a RowDescription, of at most [`MAX_BODY`] bytes. Refused where the count
    /// is missing, or the body is shorter than so many columns without a name.
    pub fn new(body: &'a [u8]) -> Result<ColumnReader<'a>, ProtocolFault>
        requires { length body.now ≤ MAX_BODY }
        ensures columns { IfOk result (Begins 19 body.now) }
        ensures fault { IfErr result (IsCountFault 19 body.now) }
    {
        let columns = Items::begin(body, LEAST_COLUMN)?;
        Ok(ColumnReader { columns })
    }

    /// How many columns are left.
    pub fn len(&self) -> usize
        ensures { result ≡ self.now.left }
    {
        self.columns.len()
    }

    /// Whether no columns are left.
    pub fn is_empty(&self) -> bool
        ensures { result ≡ (self.now.left == 0) }
    {
        self.len() == 0
    }

    /// The next column; or nothing where none is left. After a fault the reader is as it was.
    // Inlined, so that the column isn't copied on its way.
    #[inline(always)]
    pub fn next_column(&mut self) -> Result<Option<FieldRef<'a>>, ProtocolFault>
        ensures column { GivesNext column column_of_ref self.old self.new result }
        ensures fault { IfErr result (NextBreaks column self.old self.new) }
    {
        self.columns.next::<FieldRef<'a>>()
    }

    /// The next column, as [`ColumnReader::next_column`], but with a name of any bytes: for a server whose
    /// encoding isn't UTF-8.
    pub fn next_raw_column(&mut self) -> Result<Option<RawFieldRef<'a>>, ProtocolFault>
        ensures column { GivesNext raw_column column_of_raw self.old self.new result }
        ensures fault { IfErr result (NextBreaks raw_column self.old self.new) }
    {
        self.columns.next::<RawFieldRef<'a>>()
    }

    /// What follows the columns that were read: nothing at the end, where no column is left and the
    /// server sent what it counted.
    pub fn rest(&self) -> &'a [u8]
        ensures { result.now ≡ drop self.now.at self.now.body }
    {
        self.columns.rest()
    }
}
