//! Messages that are one text, and those that have no body.

ghost use Rattle.std.specs.Prelude.{◌≡◌, ◌≤ℤ◌, pos};
ghost use Rattle.pg_format.specs.Format.{Means};
ghost use Rattle.pg_format.specs.Messages as page;
ghost use Rattle.pg_c.specs.Client.{RefusesClientBody};
ghost use Rattle.pg_c.specs.Client.Text.{ReadsText};
ghost use Rattle.pg_c.specs.Read.{LeavesRest, LeavesFault};

use crate::place::PgmsgSpan;
use crate::read::check_body;
use crate::refusal::{PgmsgFault, report, report_client};
use pg_server::frontend::{read_empty, read_text};
use std::alloc::Global;

/// The text of a Query, a CopyFail or a PasswordMessage, by its body: the bytes before its NUL. 0, or why
/// it is refused.
#[unsafe(no_mangle)]
pub extern "C" fn pgmsg_read_text(
    alloc: Global,
    body: &[u8],
    text: &mut PgmsgSpan,
    fault: &mut PgmsgFault,
) -> i32
    ensures result { result ≤ℤ pos 0 }
    ensures value { result ≡ pos 0 → ReadsText body.now text.new }
    ensures fault { RefusesClientBody page.text body.now fault.old fault.new result }
    ensures left { LeavesRest body.now fault.old fault.new text.old text.new result }
{
    if let Err(why) = check_body(body) {
        return report(alloc, why.into(), fault);
    }
    match read_text(body) {
        Ok(read) => {
            *text = PgmsgSpan {
                at: 0,
                len: read.len(),
            };
            0
        }
        Err(why) => report_client(alloc, why, fault),
    }
}

/// Whether a message has no body, as those of `pgmsg_put_no_body` have none: 0, or PGMSG_TRAILING_BYTES
/// where it has one, or PGMSG_BODY_TOO_LONG where that has more than 2147483643 bytes.
#[unsafe(no_mangle)]
pub extern "C" fn pgmsg_read_no_body(alloc: Global, body: &[u8], fault: &mut PgmsgFault) -> i32
    ensures result { result ≤ℤ pos 0 }
    ensures value { result ≡ pos 0 → Means page.empty body.now tt }
    ensures fault { RefusesClientBody page.empty body.now fault.old fault.new result }
    ensures left { LeavesFault body.now fault.old fault.new result }
{
    if let Err(why) = check_body(body) {
        return report(alloc, why.into(), fault);
    }
    match read_empty(body) {
        Ok(()) => 0,
        Err(why) => report_client(alloc, why, fault),
    }
}
