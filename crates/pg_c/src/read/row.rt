//! The cells of a row.

ghost use Rattle.std.specs.Prelude.{◌≡◌, ◌+◌, ◌*◌, ◌≤◌, ◌<ℤ◌, ◌≤ℤ◌, pos, length, drop, option_copied, IfSome, OnOk, OnErr, IfOk, IfErr};
ghost use Rattle.pg_format.specs.Format.{IsFaultOf};
ghost use Rattle.pg_format.specs.Format.Nullable.{cell};
ghost use Rattle.pg_format.specs.Format.Parts.{be_u16};
ghost use Rattle.pg_format.specs.Messages.{data_row};
ghost use Rattle.pg_format.specs.Received.{max_body};
ghost use Rattle.pg_c.specs.Read.{IfRead, IsBodyFault, RefusesBody, SaysItem, LeavesFault};
ghost use Rattle.pg_c.specs.Read.Row.{cell_in, FindsCell, ReadsRow, GivesCells, GivesFrontCells};
ghost use Rattle.pg_c.specs.Read.Row.{ReadsRowAfter, GivesRowFrontAfter, IsRowFaultAfter, RefusesRowAfter};

use crate::read::check_body;
use crate::refusal::{PgmsgFault, report};
use byteorder::{BigEndian, ByteOrder};
use pg_base::ProtocolFault;
use pg_base::io::{MAX_BODY, bytes_at, u16_at};
use pg_receive::message::cell_at;
use std::alloc::Global;

// Where the first cell begins, after the count.
const FIRST_CELL: usize = 2;

// The bytes of a cell's length.
const CELL_LENGTH: usize = 4;

/// A cell of a row, or a value that a client sends: `len` bytes from `at` on, or NULL where `len` is -1.
#[repr(C)]
#[derive(Clone, Copy)]
pub struct PgmsgCell {
    pub at: u32,
    pub len: i32,
}

/// The cells of a row, by the body of its DataRow: how many it has. As many as there is room for are
/// written; the rest are read too, so a row is refused for any of its cells.
#[unsafe(no_mangle)]
pub extern "C" fn pgmsg_read_row(
    alloc: Global,
    body: &[u8],
    cells: &mut [PgmsgCell],
    fault: &mut PgmsgFault,
) -> isize
    ensures row { IfRead result (ReadsRow body.now cells.old cells.new) }
    ensures fault { RefusesBody data_row body.now fault.old fault.new result }
    ensures front { result <ℤ pos 0 → GivesFrontCells body.now cells.old cells.new }
    ensures left { LeavesFault body.now fault.old fault.new result }
{
    let count = match count_of(body) {
        Ok(count) => count,
        Err(why) => return report(alloc, why.into(), fault) as isize,
    };
    let (index, at) = read_front(body, cells, count);
    if index < count {
        return read_rest(alloc, body, cells, count, index, at, fault);
    }
    count as isize
}

// How many cells the body says it has, where there is room for the length of each.
#[inline(always)]
fn count_of(body: &[u8]) -> Result<usize, ProtocolFault>
    ensures counted { IfOk result (λ count. be_u16.Reads body.now count (drop 2 body.now)) }
    ensures fits { IfOk result (λ count. 2 + 4 * count ≤ length body.now) }
    ensures small { IfOk result (λ count. count ≤ 65535) }
    ensures within { OnOk result (length body.now ≤ max_body) }
    ensures fault { IfErr result (IsBodyFault (IsFaultOf data_row) body.now) }
{
    check_body(body)?;
    let count = usize::from(u16_at(body, 0)?);
    bytes_at(body, FIRST_CELL, CELL_LENGTH * count)?;
    Ok(count)
}

// Reads the first of so many cells: as many as there is room for, up to one after which the body is too
// short for all. How many they are, and the offset after them.
#[inline(always)]
fn read_front(body: &[u8], cells: &mut [PgmsgCell], count: usize) -> (usize, usize)
    requires fits { 2 + 4 * count ≤ length body.now }
    requires short { length body.now ≤ MAX_BODY }
    ensures few { result.0 ≤ count }
    ensures front { GivesCells body.now result.1 result.0 cells.old cells.new }
{
    let room = count.min(cells.len());
    // Where a cell ends at most, since each that follows takes the bytes of its length.
    let mut last = body.len() - CELL_LENGTH * count;
    let mut at = FIRST_CELL;
    for index in 0..room {
        last += CELL_LENGTH;
        let Some((len, end)) = cell_until(body, at, last) else {
            return (index, at);
        };
        cells[index] = placed(at + CELL_LENGTH, len);
        at = end;
    }
    (room, at)
}

/// A cell of a length from an offset on.
#[inline(always)]
pub(crate) fn placed(start: usize, len: i32) -> PgmsgCell
    requires short { start ≤ MAX_BODY }
    ensures at { result.at ≡ start }
    ensures len { result.len ≡ len }
{
    let at = start as u32;
    PgmsgCell { at, len }
}

// The length of the cell at an offset, -1 for NULL, and where it ends, unless that is after `last`.
#[inline(always)]
fn cell_until(body: &[u8], at: usize, last: usize) -> Option<(i32, usize)>
    requires length { at + 4 ≤ last }
    requires within { last ≤ length body.now }
    requires short { length body.now ≤ MAX_BODY }
    ensures within { IfSome result (λ found. found.1 ≤ last) }
    ensures cell { IfSome result (λ found. FindsCell body.now at found.0 found.1) }
{
    let start = at + CELL_LENGTH;
    let length = BigEndian::read_i32(&body[at..start]);
    // Every negative length says NULL.
    if length < 0 {
        return Some((-1, start));
    }
    let end = start + length.cast_unsigned() as usize;
    if end > last {
        return None;
    }
    Some((length, end))
}

// Reads the cells from one on: those for which there is no room, and those up to the one that is broken.
// The answer is that of the whole row.
#[cold]
#[inline(never)]
fn read_rest(
    alloc: Global,
    body: &[u8],
    cells: &mut [PgmsgCell],
    count: usize,
    first: usize,
    start: usize,
    fault: &mut PgmsgFault,
) -> isize
    requires start { start ≤ length body.now }
    requires short { length body.now ≤ MAX_BODY }
    requires counted { be_u16.Reads body.now count (drop 2 body.now) }
    requires fits { 2 + 4 * count ≤ length body.now }
    requires small { count ≤ 65535 }
    requires few { first ≤ count }
    ensures row { IfRead result (ReadsRowAfter body.now start first cells.old cells.new) }
    ensures fault { RefusesRowAfter body.now start first cells.old fault.old fault.new result }
    ensures front { result <ℤ pos 0 → GivesRowFrontAfter body.now start first cells.old cells.new }
    ensures untouched { pos 0 ≤ℤ result → fault.new ≡ fault.old }
{
    match rest_of(body, cells, count, first, start) {
        Ok(()) => count as isize,
        Err(why) => report(alloc, why.into(), fault) as isize,
    }
}

fn rest_of(
    body: &[u8],
    cells: &mut [PgmsgCell],
    count: usize,
    first: usize,
    start: usize,
) -> Result<(), ProtocolFault>
    requires start { start ≤ length body.now }
    requires short { length body.now ≤ MAX_BODY }
    requires counted { be_u16.Reads body.now count (drop 2 body.now) }
    requires fits { 2 + 4 * count ≤ length body.now }
    requires few { first ≤ count }
    ensures row { OnOk result (ReadsRowAfter body.now start first cells.old cells.new (pos count)) }
    ensures fault { IfErr result (IsRowFaultAfter body.now start first cells.old) }
    ensures front { OnErr result (GivesRowFrontAfter body.now start first cells.old cells.new) }
{
    let mut at = start;
    for index in first..count {
        let (cell, end) = cell_at(body, at)?;
        if index < cells.len() {
            cells[index] = place_of_cell(at, cell, end);
        }
        at = end;
    }
    Ok(())
}

/// The place of the cell from one offset to another.
pub(crate) fn place_of_cell(at: usize, value: Option<&[u8]>, end: usize) -> PgmsgCell
    requires wide { at + 4 ≤ end }
    requires short { end ≤ MAX_BODY }
    ensures { SaysItem cell cell_in at (option_copied value.entry) end result }
{
    let start = at + CELL_LENGTH;
    PgmsgCell {
        at: start as u32,
        len: if value.is_none() {
            -1
        } else {
            (end - start) as i32
        },
    }
}
