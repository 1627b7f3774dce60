//! Where the lists of a body end.

ghost use Rattle.std.specs.Prelude.{◌≤◌, length, IfOk, IfErr};
ghost use Rattle.pg_format.specs.Format.{IsFaultOf};
ghost use Rattle.pg_format.specs.Format.Lists.{counted_least, until_zero};
ghost use Rattle.pg_format.specs.Format.Nullable.{cell};
ghost use Rattle.pg_format.specs.Format.Places.{EndsAt, BreaksAt};
ghost use Rattle.pg_format.specs.Messages.{field};
ghost use Rattle.pg_receive.specs.Layout.{name};
ghost use Rattle.pg_receive.specs.RowDescription.Raw.{raw_column};

use crate::message::data_row::Cell;
use crate::message::{RawFieldRef, text_at};
use pg_base::ProtocolFault;
use pg_base::io::{MAX_BODY, bytes_at};
use pg_format::items::{Discard, Items};

// The least bytes of a cell and of a column.
const LEAST_CELL: usize = 4;

const LEAST_COLUMN: usize = 19;

/// The end of the cells of a row.
pub(super) fn row_end(body: &[u8]) -> Result<usize, ProtocolFault>
    requires { length body.now ≤ MAX_BODY }
    ensures end { IfOk result (EndsAt (counted_least 4 cell) body.now 0) }
    ensures fault { IfErr result (IsFaultOf (counted_least 4 cell) body.now) }
{
    let end = Items::begin(body, LEAST_CELL)?.read_all::<Cell<'_>, Discard>(&mut Discard)?;
    Ok(end)
}

/// The end of the columns of a result.
pub(super) fn columns_end(body: &[u8]) -> Result<usize, ProtocolFault>
    requires { length body.now ≤ MAX_BODY }
    ensures end { IfOk result (EndsAt (counted_least 19 raw_column) body.now 0) }
    ensures fault { IfErr result (IsFaultOf (counted_least 19 raw_column) body.now) }
{
    let end = Items::begin(body, LEAST_COLUMN)?.read_all::<RawFieldRef<'_>, Discard>(&mut Discard)?;
    Ok(end)
}

/// The end of the fields of an error or a notice, after the byte 0 in place of a letter.
pub(super) fn fields_end(body: &[u8]) -> Result<usize, ProtocolFault>
    ensures end { IfOk result (EndsAt (until_zero field) body.now 0) }
    ensures fault { IfErr result (IsFaultOf (until_zero field) body.now) }
{
    let mut at = 0;
    'fields: loop {
        let letter = bytes_at(body, at, 1)?[0];
        if letter == 0 {
            return Ok(at + 1);
        }
        let (_value, end) = text_at(body, at + 1)?;
        at = end;
    }
}

/// The end of the names of mechanisms from an offset on, after an empty one.
pub(super) fn names_end(body: &[u8], first: usize) -> Result<usize, ProtocolFault>
    requires { first ≤ length body.now }
    ensures end { IfOk result (EndsAt (until_zero name) body.now first) }
    ensures fault { IfErr result (BreaksAt (until_zero name) body.now first) }
{
    let mut at = first;
    'names: loop {
        let (name, end) = text_at(body, at)?;
        if name.is_empty() {
            return Ok(end);
        }
        at = end;
    }
}
