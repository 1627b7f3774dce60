//! Rows, and what they are made of.

ghost use Rattle.pg_server.specs.Backend.Message as messages;
ghost use Rattle.pg_c.specs.Server.{PutsServerMessage};
ghost use Rattle.pg_c.specs.Server.Lists.{borrowed, column_text_of};
ghost use Rattle.pg_c.specs.Server.Messages.{row_description_of, data_row_of};

use crate::put::prepared::PgmsgValue;
use crate::server::put;
use pg_base::io::Oid;
use pg_server::backend::{
    AsOutboundItem, OutboundColumn, OutboundDataRow, OutboundParameterDescription,
    OutboundRowDescription,
};

/// A column of a result that is written. `table` and `attribute` say which column of a table it is, and
/// are 0 where it is none; `type_size` is below 0 where the sizes of values differ; 0 in `format` is
/// text and 1 binary.
#[repr(C)]
#[derive(Clone, Copy)]
pub struct PgmsgColumnText<'a> {
    pub name: &'a [u8],
    pub table: u32,
    pub attribute: i16,
    pub type_id: u32,
    pub type_size: i16,
    pub type_modifier: i32,
    pub format: i16,
}

impl<'a> AsOutboundItem<OutboundColumn<'a>> for PgmsgColumnText<'a> {
    ghost item = { column_text_of };

    #[inline(always)]
    fn as_item(&self) -> OutboundColumn<'a> {
        OutboundColumn {
            name: self.name,
            table: Oid(self.table),
            attribute: self.attribute,
            data_type: Oid(self.type_id),
            size: self.type_size,
            modifier: self.type_modifier,
            format: self.format,
        }
    }
}

impl<'a> AsOutboundItem<Option<&'a [u8]>> for PgmsgValue<'a> {
    ghost item = { borrowed };

    #[inline(always)]
    fn as_item(&self) -> Option<&'a [u8]> {
        if self.is_null { None } else { Some(self.bytes) }
    }
}

/// The columns of a result, at most 65535, else it is refused with PGMSG_TOO_MANY. A name that holds a NUL is
/// refused.
#[unsafe(no_mangle)]
pub extern "C" fn pgmsg_put_columns(columns: &[PgmsgColumnText<'_>], out: &mut [u8]) -> isize
    ensures { PutsServerMessage (row_description_of columns.now) out.old out.new result }
{
    put(&OutboundRowDescription { columns }, out)
}

/// The values of a row, each in the format that was asked for, or NULL: at most 65535, else it is refused with
/// PGMSG_TOO_MANY.
#[unsafe(no_mangle)]
#[tactic(auto, using(crate::proofs::ServerListsLemmas::same_values))]
pub extern "C" fn pgmsg_put_row(values: &[PgmsgValue<'_>], out: &mut [u8]) -> isize
    ensures { PutsServerMessage (data_row_of values.now) out.old out.new result }
{
    put(&OutboundDataRow { values }, out)
}

/// The types of the parameters of a statement: at most 65535, else it is refused with PGMSG_TOO_MANY.
#[unsafe(no_mangle)]
pub extern "C" fn pgmsg_put_parameter_types(types: &[u32], out: &mut [u8]) -> isize
    ensures { PutsServerMessage (messages.ParameterDescription types.now) out.old out.new result }
{
    put(&OutboundParameterDescription { types }, out)
}
