//! A statement that is prepared.

ghost use Rattle.std.specs.Prelude.{◌≡◌, ◌≤◌, ◌≤ℤ◌, pos, length, IfOk, IfErr};
ghost use Rattle.pg_format.specs.Format.Lists.{counted_least};
ghost use Rattle.pg_format.specs.Format.Parts.{be_u32};
ghost use Rattle.pg_format.specs.Messages as page;
ghost use Rattle.pg_server.specs.Frontend.Message.{HasFault};
ghost use Rattle.pg_c.specs.Client.{RefusesClientBody};
ghost use Rattle.pg_c.specs.Client.Parse.{ReadsParse};
ghost use Rattle.pg_c.specs.Client.Parts.{Locates};
ghost use Rattle.pg_c.specs.Place.{StandAt};
ghost use Rattle.pg_c.specs.Read.{LeavesRest};

use crate::client::values::{name_at, place_of_text_at};
use crate::place::{PgmsgList, PgmsgSpan};
use crate::read::check_body;
use crate::refusal::{PgmsgFault, report, report_client};
use pg_base::io::MAX_BODY;
use pg_server::frontend::FrontendFault;
use pg_server::frontend::parts::{bytes_at, end_at, u16_at};
use std::alloc::Global;

// The bytes of a type.
const TYPE_LENGTH: usize = 4;

/// A statement that is prepared, empty for the one without a name, its text, and the types of its
/// parameters, each of four bytes: `pgmsg_read_types` gives them.
#[repr(C)]
#[derive(Clone, Copy)]
pub struct PgmsgParse {
    pub statement: PgmsgSpan,
    pub query: PgmsgSpan,
    pub types: PgmsgList,
}

/// A Parse, by its body. 0, or why it is refused.
#[unsafe(no_mangle)]
pub extern "C" fn pgmsg_read_parse(
    alloc: Global,
    body: &[u8],
    parse: &mut PgmsgParse,
    fault: &mut PgmsgFault,
) -> i32
    ensures result { result ≤ℤ pos 0 }
    ensures value { result ≡ pos 0 → ReadsParse body.now parse.new }
    ensures fault { RefusesClientBody page.parse body.now fault.old fault.new result }
    ensures left { LeavesRest body.now fault.old fault.new parse.old parse.new result }
{
    if let Err(why) = check_body(body) {
        return report(alloc, why.into(), fault);
    }
    match parse_of(body) {
        Ok(read) => {
            *parse = read;
            0
        }
        Err(why) => report_client(alloc, why, fault),
    }
}

#[inline(always)]
fn parse_of(body: &[u8]) -> Result<PgmsgParse, FrontendFault>
    requires { length body.now ≤ MAX_BODY }
    ensures parse { IfOk result (ReadsParse body.now) }
    ensures fault { IfErr result (HasFault page.parse body.now 0) }
{
    let (statement, end) = name_at(body, 0)?;
    let (query, end) = place_of_text_at(body, end)?;
    let (types, end) = types_at(body, end)?;
    end_at(body, end)?;
    Ok(PgmsgParse {
        statement,
        query,
        types,
    })
}

// The place of the types whose count is at an offset, and the offset after them.
#[inline(always)]
fn types_at(body: &[u8], at: usize) -> Result<(PgmsgList, usize), FrontendFault>
    requires { at ≤ length body.now }
    ensures found { Locates (counted_least 4 be_u32) (StandAt be_u32 body.now) body.now at result }
    ensures fault { IfErr result (HasFault (counted_least 4 be_u32) body.now at) }
{
    let (count, first) = u16_at(body, at)?;
    let count = usize::from(count);
    let (_types, end) = bytes_at(body, first, TYPE_LENGTH * count)?;
    Ok((PgmsgList { at: first, count }, end))
}
