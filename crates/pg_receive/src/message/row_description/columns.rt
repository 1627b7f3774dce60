//! The columns of a result, borrowed from their body.

ghost use Rattle.std.specs.Prelude.{◌≡◌, ◌==◌, ◌≤◌, length, slice_get, IsOk, IfOk, IfErr, option_map};
ghost use Rattle.std.specs.Iterator.{YieldsFirstBy, item_count};
ghost use Rattle.pg_format.specs.Format.{ReadsAs};
ghost use Rattle.pg_format.specs.Format.Places.{BreaksAt, ReadsAt};
ghost use Rattle.pg_format.specs.Messages.{column, row_description, table, attribute};
ghost use Rattle.pg_receive.specs.RowDescription.Columns.{AreNumbersOf, column_of_ref};
ghost use Rattle.pg_receive.specs.RowDescription.{column_of};

use crate::message::row_description::{Field, LEAST_COLUMN, NUMBERS_LENGTH};
use crate::message::str_at;
use pg_base::ProtocolFault;
use pg_base::io::{MAX_BODY, Oid, bytes_at, i16_at, i32_at, u32_at};
use pg_format::items::{Discard, Item, Items};
use std::alloc::{AllocError, Global};
use std::marker::Model;

/// A [`Field`] that is borrowed from the body of its message.
#[derive(Drop)]
pub struct FieldRef<'a> {
    /// The name of the column.
    pub name: &'a str,
    /// The table that the column is of, where it is of one.
    pub relation_id: Option<Oid>,
    /// The number of the column in its table, where it is of one.
    pub relation_attribute_no: Option<i16>,
    /// The type of the column.
    pub data_type_id: Oid,
    /// The bytes of the type, below 0 where they vary.
    pub data_type_size: i16,
    /// The type's modifier; its meaning depends on the type.
    pub type_modifier: i32,
    /// The format code of the values: 0 means text, and 1 means binary.
    pub format: i16,
}

impl FieldRef<'_> {
    ghost use Rattle.pg_receive.specs.RowDescription.Columns.{column_of_ref};

    /// The column with a name of its own.
    pub fn to_field(&self, alloc: Global) -> Result<Field, AllocError>
        ensures { IfOk result (λ field. column_of field ≡ column_of_ref self.now) }
    {
        Ok(Field {
            name: String::from_str(alloc, self.name)?,
            relation_id: self.relation_id,
            relation_attribute_no: self.relation_attribute_no,
            data_type_id: self.data_type_id,
            data_type_size: self.data_type_size,
            type_modifier: self.type_modifier,
            format: self.format,
        })
    }
}

impl<'a> Item<'a> for FieldRef<'a> {
    ghost use Rattle.pg_format.specs.Messages.{Column, column};
    ghost use Rattle.pg_receive.specs.RowDescription.Columns.{column_of_ref};

    ghost Shown = { Column };

    ghost shown = { column_of_ref };

    ghost format = { column };

    #[inline(always)]
    fn item_at(body: &'a [u8], at: usize) -> Result<(FieldRef<'a>, usize), ProtocolFault> {
        column_at(body, at)
    }
}

/// The columns of a result in order, borrowed from the body of their message: the iterator makes no
/// String. Documentation: "Message Formats", RowDescription (B).
#[derive(Drop)]
pub struct Columns<'a> {
    columns: Items<'a>,
}

impl<'a> Model for Columns<'a> {
    ghost use Rattle.std.specs.Prelude.{List};
    ghost use Rattle.pg_format.specs.Messages.{Column};
    ghost use Rattle.pg_receive.specs.RowDescription.Columns.{columns_left, HasColumns};

    ghost Value = { List Column };

    ghost view = { λ columns. columns_left columns.columns };

    ghost invariant = { λ columns. HasColumns columns.columns };
}

impl<'a> Columns<'a> {
    /// Reads the body of a RowDescription, of at most [`MAX_BODY`] bytes, to its last column. What
    /// it has and its faults are those of [`RowDescription`](crate::message::RowDescription).
    pub fn read(body: &'a [u8]) -> Result<Columns<'a>, ProtocolFault>
        requires { length body.now ≤ MAX_BODY }
        ensures { ReadsAs row_description (λ columns. columns) body.now result }
    {
        let columns = Items::begin(body, LEAST_COLUMN)?;
        columns.read_all::<FieldRef<'a>, Discard>(&mut Discard)?;
        Ok(Columns { columns })
    }

    /// How many columns are left.
    pub fn len(&self) -> usize
        ensures { result ≡ length self.now }
    {
        self.columns.len()
    }

    /// Whether no columns are left.
    pub fn is_empty(&self) -> bool
        ensures { result ≡ (length self.now == 0) }
    {
        self.len() == 0
    }

    /// The column at an index, counted from those that are left, where there is one. It goes over
    /// the columns in front of it.
    pub fn get(&self, index: usize) -> Option<FieldRef<'a>>
        ensures { option_map column_of_ref result ≡ slice_get self.now index }
    {
        let mut columns = Columns {
            columns: self.columns.again(),
        };
        columns.nth(index)
    }
}

impl<'a> Iterator for Columns<'a> {
    ghost use Rattle.pg_receive.specs.RowDescription.Columns.{column_of_ref};

    type Item = FieldRef<'a>;

    ghost next_gives = { YieldsFirstBy column_of_ref (λ columns. columns) };

    ghost remaining = { item_count (λ columns. columns) };

    fn next(&mut self) -> Option<FieldRef<'a>> {
        let Ok(next) = self.columns.next::<FieldRef<'a>>() else {
            return None;
        };
        let column = next?;
        Some(column)
    }
}

/// The column that begins at an offset of the body of a RowDescription, and the offset after it.
/// The body has at most [`MAX_BODY`] bytes, and the offset is at most its length. Refused with
/// `MissingNul` or `NotUtf8` for its name, and with `Short` where its numbers aren't whole.
// Inlined, so that the column isn't copied on its way.
#[inline(always)]
pub fn column_at(body: &[u8], at: usize) -> Result<(FieldRef<'_>, usize), ProtocolFault>
    requires within { at ≤ length body.now }
    requires short { length body.now ≤ MAX_BODY }
    ensures column { ReadsAt column column_of_ref body.now at result }
    ensures broken { IfErr result (BreaksAt column body.now at) }
{
    let (name, after) = str_at(body, at)?;
    let numbers = bytes_at(body, after, NUMBERS_LENGTH)?;
    Ok((field_of(name, numbers)?, after + NUMBERS_LENGTH))
}

/// The column of a name, and of the bytes of the numbers after it.
pub(super) fn field_of<'a>(name: &'a str, bytes: &[u8]) -> Result<FieldRef<'a>, ProtocolFault>
    requires { length bytes.now ≡ 18 }
    ensures whole { IsOk result }
    ensures name { IfOk result (λ field. (column_of_ref field).name ≡ name.now) }
    ensures numbers { IfOk result (λ field. AreNumbersOf (column_of_ref field) bytes.now) }
{
    Ok(FieldRef {
        name,
        relation_id: relation_of(u32_at(bytes, 0)?),
        relation_attribute_no: attribute_of(i16_at(bytes, 4)?),
        data_type_id: Oid(u32_at(bytes, 6)?),
        data_type_size: i16_at(bytes, 10)?,
        type_modifier: i32_at(bytes, 12)?,
        format: i16_at(bytes, 16)?,
    })
}

fn relation_of(id: u32) -> Option<Oid>
    ensures { option_map (λ oid. oid.0) result ≡ table id }
{
    if id == 0 { None } else { Some(Oid(id)) }
}

fn attribute_of(number: i16) -> Option<i16>
    ensures { result ≡ attribute number }
{
    if number == 0 { None } else { Some(number) }
}
