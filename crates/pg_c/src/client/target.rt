//! A prepared statement or a portal that is described or closed.

ghost use Rattle.std.specs.Prelude.{◌≡◌, ◌≤ℤ◌, pos};
ghost use Rattle.pg_format.specs.Messages as page;
ghost use Rattle.pg_server.specs.Frontend.Page.{shown_target};
ghost use Rattle.pg_c.specs.Client.{RefusesClientBody};
ghost use Rattle.pg_c.specs.Client.Target.{ReadsTarget};
ghost use Rattle.pg_c.specs.Read.{LeavesRest};

use crate::place::PgmsgSpan;
use crate::read::check_body;
use crate::refusal::{PgmsgFault, report, report_client};
use pg_server::frontend::{Target, TargetRef};
use std::alloc::Global;

// The letter before the name.
const LETTER_LENGTH: usize = 1;

/// What is described or closed: `letter` is S for a prepared statement, and P for a portal; the name is
/// empty for the one without a name.
#[repr(C)]
#[derive(Clone, Copy)]
pub struct PgmsgTarget {
    pub letter: u8,
    pub name: PgmsgSpan,
}

/// What a Describe or a Close names, by its body. 0, or why it is refused.
#[unsafe(no_mangle)]
pub extern "C" fn pgmsg_read_target(
    alloc: Global,
    body: &[u8],
    target: &mut PgmsgTarget,
    fault: &mut PgmsgFault,
) -> i32
    ensures result { result ≤ℤ pos 0 }
    ensures value { result ≡ pos 0 → ReadsTarget body.now target.new }
    ensures fault { RefusesClientBody page.targeted body.now fault.old fault.new result }
    ensures left { LeavesRest body.now fault.old fault.new target.old target.new result }
{
    if let Err(why) = check_body(body) {
        return report(alloc, why.into(), fault);
    }
    match TargetRef::read(body) {
        Ok(read) => {
            *target = PgmsgTarget {
                letter: letter_of(read.target),
                name: PgmsgSpan {
                    at: LETTER_LENGTH,
                    len: read.name.len(),
                },
            };
            0
        }
        Err(why) => report_client(alloc, why, fault),
    }
}

fn letter_of(target: Target) -> u8
    ensures { result ≡ page.target_letter (shown_target target) }
{
    match target {
        Target::Statement => b'S',
        Target::Portal => b'P',
    }
}
