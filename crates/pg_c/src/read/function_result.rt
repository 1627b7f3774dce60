//! The result of a function that was called.

ghost use Rattle.std.specs.Prelude.{◌≡◌, ◌≤◌, ◌≤ℤ◌, pos, length, OnOk, IfOk, IfErr};
ghost use Rattle.pg_format.specs.Format.{IsFaultOf};
ghost use Rattle.pg_format.specs.Messages.{function_call_response};
ghost use Rattle.pg_format.specs.Received.{max_body};
ghost use Rattle.pg_c.specs.Read.{IsBodyFault, RefusesBody, LeavesRest};
ghost use Rattle.pg_c.specs.Read.FunctionResult.{ReadsResult};

use crate::read::check_body;
use crate::read::row::{PgmsgCell, place_of_cell};
use crate::refusal::{PgmsgFault, report};
use pg_base::ProtocolFault;
use pg_receive::message::cell_at;
use std::alloc::Global;

/// The result of a function, by the body of its FunctionCallResponse: its `len` is -1 where it is NULL. 0,
/// or why it is refused.
#[unsafe(no_mangle)]
pub extern "C" fn pgmsg_read_function_result(
    alloc: Global,
    body: &[u8],
    value: &mut PgmsgCell,
    fault: &mut PgmsgFault,
) -> i32
    ensures result { result ≤ℤ pos 0 }
    ensures value { result ≡ pos 0 → ReadsResult body.now value.new }
    ensures fault { RefusesBody function_call_response body.now fault.old fault.new result }
    ensures left { LeavesRest body.now fault.old fault.new value.old value.new result }
{
    match result_of(body) {
        Ok(read) => {
            *value = read;
            0
        }
        Err(why) => report(alloc, why.into(), fault),
    }
}

fn result_of(body: &[u8]) -> Result<PgmsgCell, ProtocolFault>
    ensures value { IfOk result (ReadsResult body.now) }
    ensures within { OnOk result (length body.now ≤ max_body) }
    ensures fault { IfErr result (IsBodyFault (IsFaultOf function_call_response) body.now) }
{
    check_body(body)?;
    let (value, end) = cell_at(body, 0)?;
    Ok(place_of_cell(0, value, end))
}
