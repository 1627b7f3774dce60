//! The columns of a result whose names are in the encoding of the server.

ghost use Rattle.std.specs.Prelude.{◌≡◌, ◌≤◌, length, IsOk, IfOk, IfErr};
ghost use Rattle.pg_format.specs.Format.Places.{BreaksAt, ReadsAt};
ghost use Rattle.pg_receive.specs.RowDescription.Columns.{AreNumbersOf};
ghost use Rattle.pg_receive.specs.RowDescription.Raw.{column_of_raw, raw_column};

use crate::message::row_description::NUMBERS_LENGTH;
use crate::message::row_description::columns::field_of;
use crate::message::text_at;
use pg_base::ProtocolFault;
use pg_base::io::{MAX_BODY, Oid, bytes_at};
use pg_format::items::Item;

/// A [`FieldRef`](crate::message::FieldRef) whose name is in the server's encoding, which need not be
/// UTF-8.
#[derive(Drop)]
pub struct RawFieldRef<'a> {
    /// The name of the column.
    pub name: &'a [u8],
    /// The table that the column is of, where it is of one.
    pub relation_id: Option<Oid>,
    /// The number of the column in its table, where it is of one.
    pub relation_attribute_no: Option<i16>,
    /// The type of the column.
    pub data_type_id: Oid,
    /// The bytes of the type, below 0 where they vary.
    pub data_type_size: i16,
    /// The type's modifier; its meaning depends on the type.
    pub type_modifier: i32,
    /// The format code of the values: 0 means text, and 1 means binary.
    pub format: i16,
}

impl<'a> Item<'a> for RawFieldRef<'a> {
    ghost use Rattle.pg_format.specs.Messages.{Column};
    ghost use Rattle.pg_receive.specs.RowDescription.Raw.{column_of_raw, raw_column};

    ghost Shown = { Column };

    ghost shown = { column_of_raw };

    ghost format = { raw_column };

    #[inline(always)]
    fn item_at(body: &'a [u8], at: usize) -> Result<(RawFieldRef<'a>, usize), ProtocolFault> {
        raw_column_at(body, at)
    }
}

/// The column that begins at an offset of the body of a RowDescription, and the offset after it, as
/// [`column_at`](crate::message::column_at), but with a name of any bytes. Refused with `MissingNul` for
/// its name, and with `Short` where its numbers aren't whole.
pub fn raw_column_at(body: &[u8], at: usize) -> Result<(RawFieldRef<'_>, usize), ProtocolFault>
    requires within { at ≤ length body.now }
    requires short { length body.now ≤ MAX_BODY }
    ensures column { ReadsAt raw_column column_of_raw body.now at result }
    ensures broken { IfErr result (BreaksAt raw_column body.now at) }
{
    let (name, after) = text_at(body, at)?;
    let numbers = bytes_at(body, after, NUMBERS_LENGTH)?;
    Ok((raw_field_of(name, numbers)?, after + NUMBERS_LENGTH))
}

// The column of a name, and of the bytes of the numbers after it.
fn raw_field_of<'a>(name: &'a [u8], bytes: &[u8]) -> Result<RawFieldRef<'a>, ProtocolFault>
    requires { length bytes.now ≡ 18 }
    ensures whole { IsOk result }
    ensures name { IfOk result (λ field. (column_of_raw field).name ≡ name.now) }
    ensures numbers { IfOk result (λ field. AreNumbersOf (column_of_raw field) bytes.now) }
{
    let field = field_of("", bytes)?;
    Ok(RawFieldRef {
        name,
        relation_id: field.relation_id,
        relation_attribute_no: field.relation_attribute_no,
        data_type_id: field.data_type_id,
        data_type_size: field.data_type_size,
        type_modifier: field.type_modifier,
        format: field.format,
    })
}
