//! A portal that a client makes of a prepared statement.

ghost use Rattle.std.specs.Prelude.{◌≤◌, ◌<ℤ◌, pos, length, IfOk, IfErr};
ghost use Rattle.pg_format.specs.Messages as page;
ghost use Rattle.pg_server.specs.Frontend.Message.{HasFault};
ghost use Rattle.pg_c.specs.Client.{RefusesClientBody};
ghost use Rattle.pg_c.specs.Client.Bind.{ReadsBind, CountsBind, GivesFrontValues};
ghost use Rattle.pg_c.specs.Read.{IfRead, LeavesRest};

use crate::client::lists::codes_at;
use crate::client::values::{name_at, values_at};
use crate::place::{PgmsgList, PgmsgSpan};
use crate::read::check_body;
use crate::read::row::PgmsgCell;
use crate::refusal::{PgmsgFault, report, report_client};
use pg_base::io::MAX_BODY;
use pg_server::frontend::FrontendFault;
use pg_server::frontend::parts::end_at;
use std::alloc::Global;

/// A portal to make of a prepared statement: the names of both, empty for those without one, the format
/// codes of the values and of the result, for `pgmsg_read_codes`, and the values: `values.at` is where the
/// length of the first stands. Whether there are as many codes as values isn't tested.
#[repr(C)]
#[derive(Clone, Copy)]
pub struct PgmsgBind {
    pub portal: PgmsgSpan,
    pub statement: PgmsgSpan,
    pub formats: PgmsgList,
    pub values: PgmsgList,
    pub result_formats: PgmsgList,
}

/// A portal to make of a prepared statement, by the body of a Bind: how many values it has. As many as
/// there is room for are written; the rest are read too.
#[unsafe(no_mangle)]
pub extern "C" fn pgmsg_read_bind(
    alloc: Global,
    body: &[u8],
    values: &mut [PgmsgCell],
    bind: &mut PgmsgBind,
    fault: &mut PgmsgFault,
) -> isize
    ensures value { IfRead result (ReadsBind body.now bind.new values.old values.new) }
    ensures fault { RefusesClientBody page.bind body.now fault.old fault.new result }
    ensures front { result <ℤ pos 0 → GivesFrontValues body.now values.old values.new }
    ensures left { LeavesRest body.now fault.old fault.new bind.old bind.new result }
{
    if let Err(why) = check_body(body) {
        return report(alloc, why.into(), fault) as isize;
    }
    match bind_of(body, values) {
        Ok(read) => {
            *bind = read;
            read.values.count as isize
        }
        Err(why) => report_client(alloc, why, fault) as isize,
    }
}

#[inline(always)]
fn bind_of(body: &[u8], values: &mut [PgmsgCell]) -> Result<PgmsgBind, FrontendFault>
    requires { length body.now ≤ MAX_BODY }
    ensures bind { IfOk result (CountsBind body.now values.old values.new) }
    ensures small { IfOk result (λ read. read.values.count ≤ 65535) }
    ensures fault { IfErr result (HasFault page.bind body.now 0) }
    ensures front { IfErr result (λ _. GivesFrontValues body.now values.old values.new) }
{
    let (portal, end) = name_at(body, 0)?;
    let (statement, end) = name_at(body, end)?;
    let (formats, end) = codes_at(body, end)?;
    let (list, end) = values_at(body, end, values)?;
    let (result_formats, end) = codes_at(body, end)?;
    end_at(body, end)?;
    Ok(PgmsgBind {
        portal,
        statement,
        formats,
        values: list,
        result_formats,
    })
}
