//! The columns of a result.

mod column_reader;
mod columns;
mod raw_columns;

ghost use Rattle.std.specs.Prelude.{◌≡◌, ◌≤◌, [], length};
ghost use Rattle.pg_base.specs.declared.format.BackendMessageFormat.TheVariants as formats;
ghost use Rattle.pg_format.specs.Messages.{row_description};
ghost use Rattle.pg_receive.specs.RowDescription.{columns_shown, ColumnsNeedsNoMemory, HasRoomFor};
ghost use Rattle.pg_format.specs.Received.{DecodesBody};

use crate::message::BackendMessage;
use bytes::Bytes;
pub use column_reader::ColumnReader;
pub use columns::{Columns, FieldRef, column_at};
use pg_base::io::{MAX_BODY, Oid};
use pg_base::{BackendMessageFormat, Error};
use pg_format::items::{Items, Keeper};
pub use raw_columns::{RawFieldRef, raw_column_at};
use std::alloc::Global;

// The bytes of a column's numbers, which follow its name.
const NUMBERS_LENGTH: usize = 18;

// The least bytes of a column: the NUL of an empty name, and the numbers.
const LEAST_COLUMN: usize = 19;

/// The columns of the rows that follow. Documentation: "Message Formats", RowDescription (B).
#[derive(Drop)]
pub struct RowDescription {
    /// The columns, in order.
    pub fields: Vec<Field>,
}

/// A column of a result.
#[derive(Drop)]
pub struct Field {
    /// The name of the column.
    pub name: String,
    /// The table that the column is of, where it is of one.
    pub relation_id: Option<Oid>,
    /// The number of the column in its table, where it is of one.
    pub relation_attribute_no: Option<i16>,
    /// The type of the column.
    pub data_type_id: Oid,
    /// The bytes of the type, below 0 where they vary.
    pub data_type_size: i16,
    /// The type's modifier; its meaning depends on the type.
    pub type_modifier: i32,
    /// The format code of the values: 0 means text, and 1 means binary.
    pub format: i16,
}

impl BackendMessage for RowDescription {
    ghost use Rattle.std.specs.Prelude.{List};
    ghost use Rattle.pg_format.specs.Messages.{Column, row_description};
    ghost use Rattle.pg_format.proofs.FormatLaws.FromServer.{lawful_row_description};
    ghost use Rattle.pg_receive.specs.RowDescription.{columns_shown, ColumnsNeedsNoMemory};

    const FORMAT: BackendMessageFormat = BackendMessageFormat::RowDescription;

    ghost FORMAT = { formats.RowDescription };

    ghost Shown = { List Column };

    ghost shown = { λ description. columns_shown description.fields };

    ghost format = { row_description };

    ghost NeedsNoMemory = { ColumnsNeedsNoMemory };

    fn decode_body(alloc: Global, buf: Bytes) -> Result<Self, Error> {
        let fields = fields_of(alloc, buf.as_slice())?;
        Ok(RowDescription { fields })
    }

    ghost lawful = { lawful_row_description };
}

// The columns as they are read, with names of their own. Where memory runs out for one, the others are read all the
// same: a body with a fault has that answer.
#[derive(Drop)]
struct OwnFields {
    alloc: Global,
    fields: Vec<Field>,
    lacks_memory: bool,
}

impl OwnFields {
    // None yet, and room for so many.
    fn with_room(alloc: Global, count: usize) -> OwnFields
        ensures none { result.fields.items ≡ [] }
        ensures room { HasRoomFor result.lacks_memory result.fields count }
    {
        match Vec::with_capacity(alloc, count) {
            Ok(fields) => OwnFields {
                alloc,
                fields,
                lacks_memory: false,
            },
            Err(_) => OwnFields {
                alloc,
                fields: Vec::new(alloc),
                lacks_memory: true,
            },
        }
    }
}

impl<'a> Keeper<'a, FieldRef<'a>> for OwnFields {
    ghost use Rattle.pg_receive.specs.RowDescription.{AreOwned, HasRoomFor};

    ghost keeps = { λ now _ _ columns _. AreOwned now.lacks_memory now.fields.items columns };

    ghost has_room = { λ now more. HasRoomFor now.lacks_memory now.fields more };

    fn keep(&mut self, _at: usize, column: FieldRef<'a>, _end: usize) {
        if self.lacks_memory {
            return;
        }
        match column.to_field(self.alloc) {
            Ok(field) => self.fields.push_reserved(field),
            Err(_) => self.lacks_memory = true,
        }
    }
}

fn fields_of(alloc: Global, body: &[u8]) -> Result<Vec<Field>, Error>
    requires { length body.now ≤ MAX_BODY }
    ensures { DecodesBody row_description ColumnsNeedsNoMemory columns_shown body.now result }
{
    let columns = Items::begin(body, LEAST_COLUMN)?;
    if columns.is_empty() {
        return Ok(Vec::new(alloc));
    }
    let mut own = OwnFields::with_room(alloc, columns.len());
    columns.read_all::<FieldRef<'_>, OwnFields>(&mut own)?;
    if own.lacks_memory {
        return Err(Error::OutOfMemory);
    }
    Ok(own.fields)
}
