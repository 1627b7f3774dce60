//! The numbers of the lists in a client's message.

ghost use Rattle.std.specs.Prelude.{◌≡◌, ◌≤◌, length, IfSome, IfNone, IfErr};
ghost use Rattle.pg_format.specs.Format.Parts.{be_u16, be_u32};
ghost use Rattle.pg_format.specs.Messages.{format_codes};
ghost use Rattle.pg_server.specs.Frontend.Message.{HasFault};
ghost use Rattle.pg_c.specs.Client.Parts.{Locates, HasList, LacksList, GivesList};
ghost use Rattle.pg_c.specs.Place.{StandAt};

use crate::place::PgmsgList;
use byteorder::{BigEndian, ByteOrder};
use pg_server::frontend::FrontendFault;
use pg_server::frontend::parts::{bytes_at, u16_at};

const CODE_LENGTH: usize = 2;

const TYPE_LENGTH: usize = 4;

/// The format codes of a list that `pgmsg_read_bind` or `pgmsg_read_function_call` gave of this body: how
/// many there are, 0 where the list isn't in the body. As many as there is room for are written. A code is
/// 0 for text and 1 for binary; others are no fault.
#[unsafe(no_mangle)]
pub extern "C" fn pgmsg_read_codes(body: &[u8], list: PgmsgList, codes: &mut [u16]) -> usize
    ensures count { HasList 2 body.now list → result ≡ list.count }
    ensures given { HasList 2 body.now list → GivesList be_u16 2 body.now list codes.old codes.new }
    ensures outside { LacksList 2 body.now list → result ≡ 0 }
    ensures kept { LacksList 2 body.now list → codes.new ≡ codes.old }
{
    let Some(_end) = end_of(body, list, CODE_LENGTH) else {
        return 0;
    };
    for index in 0..list.count {
        let at = list.at + CODE_LENGTH * index;
        let code = BigEndian::read_u16(&body[at..at + CODE_LENGTH]);
        if index < codes.len() {
            codes[index] = code;
        }
    }
    list.count
}

/// The types of the parameters in a list that `pgmsg_read_parse` gave of this body, or the numbers of the
/// tables in one that `pgmsg_read_logical` gave: how many there are, 0 where the list isn't in the body. As
/// many as there is room for are written. A type is 0 where the server is to find it.
#[unsafe(no_mangle)]
pub extern "C" fn pgmsg_read_types(body: &[u8], list: PgmsgList, types: &mut [u32]) -> usize
    ensures count { HasList 4 body.now list → result ≡ list.count }
    ensures given { HasList 4 body.now list → GivesList be_u32 4 body.now list types.old types.new }
    ensures outside { LacksList 4 body.now list → result ≡ 0 }
    ensures kept { LacksList 4 body.now list → types.new ≡ types.old }
{
    let Some(_end) = end_of(body, list, TYPE_LENGTH) else {
        return 0;
    };
    for index in 0..list.count {
        let at = list.at + TYPE_LENGTH * index;
        let number = BigEndian::read_u32(&body[at..at + TYPE_LENGTH]);
        if index < types.len() {
            types[index] = number;
        }
    }
    list.count
}

// Where a list of items of a width ends, if that is within the body.
fn end_of(body: &[u8], list: PgmsgList, width: usize) -> Option<usize>
    ensures inside { IfSome result (λ _. HasList width body.now list) }
    ensures outside { IfNone result (LacksList width body.now list) }
{
    let end = list.at.checked_add(width.checked_mul(list.count)?)?;
    if end > body.len() {
        return None;
    }
    Some(end)
}

/// The place of the format codes whose count is at an offset, and the offset after them.
#[inline(always)]
pub(crate) fn codes_at(body: &[u8], at: usize) -> Result<(PgmsgList, usize), FrontendFault>
    requires { at ≤ length body.now }
    ensures found { Locates format_codes (StandAt be_u16 body.now) body.now at result }
    ensures fault { IfErr result (HasFault format_codes body.now at) }
{
    let (count, first) = u16_at(body, at)?;
    let count = usize::from(count);
    let (_codes, end) = bytes_at(body, first, CODE_LENGTH * count)?;
    Ok((PgmsgList { at: first, count }, end))
}
