//! A portal that is run.

ghost use Rattle.std.specs.Prelude.{◌≡◌, ◌≤◌, ◌≤ℤ◌, pos, length, IfOk, IfErr};
ghost use Rattle.pg_format.specs.Messages as page;
ghost use Rattle.pg_server.specs.Frontend.Message.{HasFault};
ghost use Rattle.pg_c.specs.Client.{RefusesClientBody};
ghost use Rattle.pg_c.specs.Client.Execute.{ReadsExecute};
ghost use Rattle.pg_c.specs.Read.{LeavesRest};

use crate::client::values::name_at;
use crate::place::PgmsgSpan;
use crate::read::check_body;
use crate::refusal::{PgmsgFault, report, report_client};
use pg_base::io::MAX_BODY;
use pg_server::frontend::FrontendFault;
use pg_server::frontend::parts::{end_at, u32_at};
use std::alloc::Global;

/// A portal that is run, empty for the one without a name, and the most rows to send back: 0 for all of
/// them, and a server takes a number from 2147483648 on for all of them too.
#[repr(C)]
#[derive(Clone, Copy)]
pub struct PgmsgExecute {
    pub portal: PgmsgSpan,
    pub max_rows: u32,
}

/// An Execute, by its body. 0, or why it is refused.
#[unsafe(no_mangle)]
pub extern "C" fn pgmsg_read_execute(
    alloc: Global,
    body: &[u8],
    execute: &mut PgmsgExecute,
    fault: &mut PgmsgFault,
) -> i32
    ensures result { result ≤ℤ pos 0 }
    ensures value { result ≡ pos 0 → ReadsExecute body.now execute.new }
    ensures fault { RefusesClientBody page.execute body.now fault.old fault.new result }
    ensures left { LeavesRest body.now fault.old fault.new execute.old execute.new result }
{
    if let Err(why) = check_body(body) {
        return report(alloc, why.into(), fault);
    }
    match execute_of(body) {
        Ok(read) => {
            *execute = read;
            0
        }
        Err(why) => report_client(alloc, why, fault),
    }
}

#[inline(always)]
fn execute_of(body: &[u8]) -> Result<PgmsgExecute, FrontendFault>
    requires { length body.now ≤ MAX_BODY }
    ensures execute { IfOk result (ReadsExecute body.now) }
    ensures fault { IfErr result (HasFault page.execute body.now 0) }
{
    let (portal, end) = name_at(body, 0)?;
    let (max_rows, end) = u32_at(body, end)?;
    end_at(body, end)?;
    Ok(PgmsgExecute { portal, max_rows })
}
