//! One cell of a row.

ghost use Rattle.std.specs.Prelude.{◌≡◌, ◌≤◌, length, IfErr, option_copied};
ghost use Rattle.pg_format.specs.Format.Nullable.{cell};
ghost use Rattle.pg_format.specs.Format.Places.{BreaksAt, ReadsAt};

use crate::message::data_row::CELL_LENGTH;
use byteorder::{BigEndian, ByteOrder};
use pg_base::ProtocolFault;
use pg_base::io::{MAX_BODY, bytes_at, i32_at};
use pg_format::items::{Item, QuickItem};

/// A cell of a row, nothing for NULL.
#[derive(Drop)]
pub struct Cell<'a>(pub Option<&'a [u8]>);

impl<'a> Item<'a> for Cell<'a> {
    ghost use Rattle.std.specs.Prelude.{ℕ, List, Option, option_copied};
    ghost use Rattle.pg_format.specs.Format.Nullable.{cell};

    ghost Shown = { Option (List ℕ) };

    ghost shown = { λ found. option_copied found.0 };

    ghost format = { cell };

    #[inline(always)]
    fn item_at(body: &'a [u8], at: usize) -> Result<(Cell<'a>, usize), ProtocolFault> {
        let (value, end) = cell_at(body, at)?;
        Ok((Cell(value), end))
    }
}

impl<'a> QuickItem<'a> for Cell<'a> {
    ghost least = { 4 };

    #[inline(always)]
    fn item_until(body: &'a [u8], at: usize, last: usize) -> Option<(Cell<'a>, usize)> {
        let start = at + CELL_LENGTH;
        let length = BigEndian::read_i32(&body[at..start]);
        let end = start + length.cast_unsigned() as usize;
        if end <= last {
            return Some((Cell(Some(&body[start..end])), end));
        }
        // Every negative length says NULL; without its sign it is beyond any body.
        if length < 0 {
            return Some((Cell(None), start));
        }
        None
    }
}

/// The value of the cell that begins at an offset of the body of a DataRow, nothing for NULL, which
/// any length below 0 says, and the offset after the cell. The body has at most [`MAX_BODY`] bytes,
/// and the offset is at most its length. Refused with `Short` where the body ends before the cell.
pub fn cell_at(body: &[u8], at: usize) -> Result<(Option<&[u8]>, usize), ProtocolFault>
    requires within { at ≤ length body.now }
    requires short { length body.now ≤ MAX_BODY }
    ensures cell { ReadsAt cell (λ value. option_copied value) body.now at result }
    ensures broken { IfErr result (BreaksAt cell body.now at) }
{
    let length = i32_at(body, at)?;
    let start = at + CELL_LENGTH;
    // Every negative length says NULL.
    if length < 0 {
        return Ok((None, start));
    }
    let length = length.cast_unsigned() as usize;
    let value = bytes_at(body, start, length)?;
    Ok((Some(value), start + length))
}
