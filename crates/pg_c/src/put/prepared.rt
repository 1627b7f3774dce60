//! Prepared statements, portals and their values, and calls of functions. A name is any bytes but NUL,
//! and empty for the statement or the portal without one.

ghost use Rattle.pg_send.specs.Message as message;
ghost use Rattle.pg_c.specs.Put.{PutsMessage};
ghost use Rattle.pg_c.specs.Put.Values.{value_of, parse_of, execute_of, PutsBind, PutsCall, PutsTargeted};

use crate::put::put;
use crate::refusal::UNKNOWN_TARGET;
use pg_base::io::Oid;
use pg_send::message::values::AsValue;
use pg_send::message::{FunctionCall, RawBind, RawClose, RawDescribe, RawExecute, RawParse};

/// The value of a parameter, or of a row. Where `is_null` is true, the bytes aren't looked at.
#[repr(C)]
#[derive(Clone, Copy)]
pub struct PgmsgValue<'a> {
    pub bytes: &'a [u8],
    pub is_null: bool,
}

impl AsValue for PgmsgValue<'_> {
    ghost value = { value_of };

    #[inline(always)]
    fn as_value(&self) -> Option<&[u8]> {
        if self.is_null { None } else { Some(self.bytes) }
    }
}

/// A Parse: prepares a statement. `types` are those of the parameters from the first on; the server
/// infers those that are 0 or missing. A name or a query that holds a NUL is refused.
#[unsafe(no_mangle)]
pub extern "C" fn pgmsg_put_parse(
    statement: &[u8],
    query: &[u8],
    types: &[u32],
    out: &mut [u8],
) -> isize
    ensures { PutsMessage (parse_of statement.now query.now types.now) out.old out.new result }
{
    let parse = RawParse {
        statement,
        query,
        param_types: types,
    };
    put(&parse, out)
}

/// A Bind: makes a portal of a prepared statement and the values of its parameters. Formats are codes,
/// 0 for text and 1 for binary: none where all are text, one for all, or one each. A name that holds a
/// NUL is refused.
#[unsafe(no_mangle)]
pub extern "C" fn pgmsg_put_bind(
    portal: &[u8],
    statement: &[u8],
    formats: &[u16],
    values: &[PgmsgValue<'_>],
    result_formats: &[u16],
    out: &mut [u8],
) -> isize
    ensures { PutsBind portal.now statement.now formats.now values.now result_formats.now out.old out.new result }
{
    let bind = RawBind {
        portal,
        statement,
        formats,
        values,
        result_formats,
    };
    put(&bind, out)
}

/// A Describe of a prepared statement, where `kind` is `S`, or of a portal, where it is `P`. Another `kind` is refused
/// with PGMSG_UNKNOWN_TARGET, and then a name that holds a NUL with PGMSG_TEXT_HOLDS_NUL.
#[unsafe(no_mangle)]
pub extern "C" fn pgmsg_put_describe(kind: u8, name: &[u8], out: &mut [u8]) -> isize
    ensures { PutsTargeted message.RawDescribe kind name.now out.old out.new result }
{
    let target = match kind {
        b'S' => RawDescribe::Statement(name),
        b'P' => RawDescribe::Portal(name),
        _ => return UNKNOWN_TARGET as isize,
    };
    put(&target, out)
}

/// A Close of a prepared statement or a portal, with `kind`, `name` and refusals as in
/// `pgmsg_put_describe`.
#[unsafe(no_mangle)]
pub extern "C" fn pgmsg_put_close(kind: u8, name: &[u8], out: &mut [u8]) -> isize
    ensures { PutsTargeted message.RawClose kind name.now out.old out.new result }
{
    let target = match kind {
        b'S' => RawClose::Statement(name),
        b'P' => RawClose::Portal(name),
        _ => return UNKNOWN_TARGET as isize,
    };
    put(&target, out)
}

/// An Execute: runs a portal. `limit` is the most rows to send back, 0 for all of them; a server takes a
/// number from 2147483648 on for all of them too. A name that holds a NUL is refused.
#[unsafe(no_mangle)]
pub extern "C" fn pgmsg_put_execute(portal: &[u8], limit: u32, out: &mut [u8]) -> isize
    ensures { PutsMessage (execute_of portal.now limit) out.old out.new result }
{
    let execute = RawExecute { portal, limit };
    put(&execute, out)
}

/// A FunctionCall: calls a function by its object id. Formats are as in `pgmsg_put_bind`. The answer is a
/// FunctionCallResponse, for `pgmsg_read_function_result`.
#[unsafe(no_mangle)]
pub extern "C" fn pgmsg_put_function_call(
    object_id: u32,
    formats: &[u16],
    arguments: &[PgmsgValue<'_>],
    result_format: u16,
    out: &mut [u8],
) -> isize
    ensures { PutsCall object_id formats.now arguments.now result_format out.old out.new result }
{
    let call = FunctionCall {
        object_id: Oid(object_id),
        formats,
        arguments,
        result_format,
    };
    put(&call, out)
}
