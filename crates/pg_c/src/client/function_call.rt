//! A call of a function by its object id, as a client sends it.

ghost use Rattle.std.specs.Prelude.{◌≤◌, ◌<ℤ◌, pos, length, IfOk, IfErr};
ghost use Rattle.pg_format.specs.Messages as page;
ghost use Rattle.pg_server.specs.Frontend.Message.{HasFault};
ghost use Rattle.pg_c.specs.Client.{RefusesClientBody};
ghost use Rattle.pg_c.specs.Client.FunctionCall.{ReadsCall, CountsCall, GivesFrontArguments};
ghost use Rattle.pg_c.specs.Read.{IfRead, LeavesRest};

use crate::client::lists::codes_at;
use crate::client::values::values_at;
use crate::place::PgmsgList;
use crate::read::check_body;
use crate::read::row::PgmsgCell;
use crate::refusal::{PgmsgFault, report, report_client};
use pg_base::io::MAX_BODY;
use pg_server::frontend::FrontendFault;
use pg_server::frontend::parts::{end_at, u16_at, u32_at};
use std::alloc::Global;

/// A call of a function by its object id: the format codes of the arguments, for `pgmsg_read_codes`, and
/// the arguments: `arguments.at` is where the length of the first stands. `result_format` is 0 for text
/// and 1 for binary; others are no fault. Whether there are as many codes as arguments isn't tested.
#[repr(C)]
#[derive(Clone, Copy)]
pub struct PgmsgFunctionCall {
    pub function: u32,
    pub formats: PgmsgList,
    pub arguments: PgmsgList,
    pub result_format: u16,
}

/// A call of a function, by the body of a FunctionCall: how many arguments it has. As many as there is
/// room for are written; the rest are read too.
#[unsafe(no_mangle)]
pub extern "C" fn pgmsg_read_function_call(
    alloc: Global,
    body: &[u8],
    arguments: &mut [PgmsgCell],
    call: &mut PgmsgFunctionCall,
    fault: &mut PgmsgFault,
) -> isize
    ensures value { IfRead result (ReadsCall body.now call.new arguments.old arguments.new) }
    ensures fault { RefusesClientBody page.function_call body.now fault.old fault.new result }
    ensures front { result <ℤ pos 0 → GivesFrontArguments body.now arguments.old arguments.new }
    ensures left { LeavesRest body.now fault.old fault.new call.old call.new result }
{
    if let Err(why) = check_body(body) {
        return report(alloc, why.into(), fault) as isize;
    }
    match call_of(body, arguments) {
        Ok(read) => {
            *call = read;
            read.arguments.count as isize
        }
        Err(why) => report_client(alloc, why, fault) as isize,
    }
}

fn call_of(body: &[u8], arguments: &mut [PgmsgCell]) -> Result<PgmsgFunctionCall, FrontendFault>
    requires { length body.now ≤ MAX_BODY }
    ensures call { IfOk result (CountsCall body.now arguments.old arguments.new) }
    ensures small { IfOk result (λ read. read.arguments.count ≤ 65535) }
    ensures fault { IfErr result (HasFault page.function_call body.now 0) }
    ensures front { IfErr result (λ _. GivesFrontArguments body.now arguments.old arguments.new) }
{
    let (function, end) = u32_at(body, 0)?;
    let (formats, end) = codes_at(body, end)?;
    let (list, end) = values_at(body, end, arguments)?;
    let (result_format, end) = u16_at(body, end)?;
    end_at(body, end)?;
    Ok(PgmsgFunctionCall {
        function,
        formats,
        arguments: list,
        result_format,
    })
}
