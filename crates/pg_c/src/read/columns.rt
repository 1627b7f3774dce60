//! The columns of a result, and the types of a statement's parameters.

ghost use Rattle.std.specs.Prelude.{◌≡◌, ◌≤◌, ◌<ℤ◌, ℕ, pos, length, OnOk, IfOk, IfErr};
ghost use Rattle.std.specs.Option.{option_map_or};
ghost use Rattle.pg_format.specs.Format.{IsFaultOf};
ghost use Rattle.pg_format.specs.Messages.{parameter_description};
ghost use Rattle.pg_receive.specs.RowDescription.Raw.{column_of_raw, raw_column, raw_row_description};
ghost use Rattle.pg_format.specs.Received.{max_body};
ghost use Rattle.pg_c.specs.Read.Columns.{column_in, ReadsColumns, GivesColumns, ReadsTypes, GivesTypes};
ghost use Rattle.pg_c.specs.Read.{IfRead, IfCount, IsBodyFault, RefusesBody, SaysItem, LeavesFault};

use crate::place::PgmsgSpan;
use crate::read::check_body;
use crate::refusal::{PgmsgFault, report};
use pg_base::ProtocolFault;
use pg_base::io::{Oid, bytes_at, u16_at, u32_at};
use pg_receive::message::{RawFieldRef, raw_column_at};
use std::alloc::Global;

// Where the first column or type begins, after the count.
const FIRST: usize = 2;

// The least bytes of a column.
const LEAST_COLUMN: usize = 19;

const TYPE_LENGTH: usize = 4;

/// A column of a result. `table` and `attribute` are 0 where it is of no table. `type_size` is below 0
/// where it varies. `format` is 0 for text, 1 for binary.
#[repr(C)]
#[derive(Clone, Copy)]
pub struct PgmsgColumn {
    pub name: PgmsgSpan,
    pub table: u32,
    pub attribute: i16,
    pub type_id: u32,
    pub type_size: i16,
    pub type_modifier: i32,
    pub format: i16,
}

/// The columns of a result, by the body of its RowDescription: how many there are. As many as there is
/// room for are written; the rest are read too.
#[unsafe(no_mangle)]
pub extern "C" fn pgmsg_read_columns(
    alloc: Global,
    body: &[u8],
    columns: &mut [PgmsgColumn],
    fault: &mut PgmsgFault,
) -> isize
    ensures columns { IfRead result (ReadsColumns body.now columns.old columns.new) }
    ensures fault { RefusesBody raw_row_description body.now fault.old fault.new result }
    ensures front { result <ℤ pos 0 → GivesColumns body.now columns.old columns.new }
    ensures left { LeavesFault body.now fault.old fault.new result }
{
    match columns_of(body, columns) {
        Ok(count) => count as isize,
        Err(why) => report(alloc, why.into(), fault) as isize,
    }
}

fn columns_of(body: &[u8], columns: &mut [PgmsgColumn]) -> Result<usize, ProtocolFault>
    ensures small { IfOk result (λ count. count ≤ 65535) }
    ensures columns { IfCount result (ReadsColumns body.now columns.old columns.new) }
    ensures within { OnOk result (length body.now ≤ max_body) }
    ensures fault { IfErr result (IsBodyFault (IsFaultOf raw_row_description) body.now) }
    ensures front { IfErr result (λ _. GivesColumns body.now columns.old columns.new) }
{
    check_body(body)?;
    let count = usize::from(u16_at(body, 0)?);
    bytes_at(body, FIRST, LEAST_COLUMN * count)?;
    let mut at = FIRST;
    for index in 0..count {
        let (column, end) = raw_column_at(body, at)?;
        if index < columns.len() {
            columns[index] = place_of_column(at, &column);
        }
        at = end;
    }
    Ok(count)
}

// The place of the column that begins at an offset.
fn place_of_column(at: usize, field: &RawFieldRef<'_>) -> PgmsgColumn
    ensures { (end : ℕ) → SaysItem raw_column column_in at (column_of_raw field.now) end result }
{
    PgmsgColumn {
        name: PgmsgSpan {
            at,
            len: field.name.len(),
        },
        table: table_of(field.relation_id),
        attribute: field.relation_attribute_no.unwrap_or(0),
        type_id: field.data_type_id.0,
        type_size: field.data_type_size,
        type_modifier: field.type_modifier,
        format: field.format,
    }
}

// The number of a table, 0 for none.
fn table_of(id: Option<Oid>) -> u32
    ensures { result ≡ option_map_or (λ oid. oid.0) id 0 }
{
    match id {
        Some(Oid(number)) => number,
        None => 0,
    }
}

/// The types of a statement's parameters, by the body of its ParameterDescription: how many there are.
/// As many as there is room for are written.
#[unsafe(no_mangle)]
pub extern "C" fn pgmsg_read_parameter_types(
    alloc: Global,
    body: &[u8],
    types: &mut [u32],
    fault: &mut PgmsgFault,
) -> isize
    ensures types { IfRead result (ReadsTypes body.now types.old types.new) }
    ensures fault { RefusesBody parameter_description body.now fault.old fault.new result }
    ensures front { result <ℤ pos 0 → GivesTypes body.now types.old types.new }
    ensures left { LeavesFault body.now fault.old fault.new result }
{
    match types_of(body, types) {
        Ok(count) => count as isize,
        Err(why) => report(alloc, why.into(), fault) as isize,
    }
}

fn types_of(body: &[u8], types: &mut [u32]) -> Result<usize, ProtocolFault>
    ensures small { IfOk result (λ count. count ≤ 65535) }
    ensures types { IfCount result (ReadsTypes body.now types.old types.new) }
    ensures within { OnOk result (length body.now ≤ max_body) }
    ensures fault { IfErr result (IsBodyFault (IsFaultOf parameter_description) body.now) }
    ensures front { IfErr result (λ _. GivesTypes body.now types.old types.new) }
{
    check_body(body)?;
    let count = usize::from(u16_at(body, 0)?);
    bytes_at(body, FIRST, TYPE_LENGTH * count)?;
    for index in 0..count {
        let number = u32_at(body, FIRST + TYPE_LENGTH * index)?;
        if index < types.len() {
            types[index] = number;
        }
    }
    Ok(count)
}
