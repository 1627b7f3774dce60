//! Where the parts of a body end.

ghost use Rattle.std.specs.Prelude.{◌≤◌, length, OnOk, IfOk, IfErr};
ghost use Rattle.pg_format.specs.Format.{IsFaultOf};
ghost use Rattle.pg_format.specs.Format.Places.{EndsAt};
ghost use Rattle.pg_receive.specs.Layout.{layout};
ghost use Rattle.pg_format.specs.Received.{max_body};
ghost use Rattle.pg_c.specs.Read.End.{GivesEnd, IsEndFault};
ghost use Rattle.pg_c.specs.Read.{IfRead, IsBodyFault, LeavesFault};
ghost use Rattle.pg_c.specs.Refusal.{RefusesFor};

use crate::read::check_body;
use crate::refusal::{PgmsgFault, report};
use pg_base::{BackendMessageFormat, ProtocolFault};
use pg_receive::message::body_end;
use std::alloc::Global;

/// The offset after the last part of a body, by the tag of its message: `body_len` where nothing follows
/// the parts that the documentation lists. A body is refused where a part can't be read or a list has no
/// end, and with PGMSG_UNKNOWN_MESSAGE_TYPE where the tag is none of the 21 that sqlx-postgres knows. Texts are
/// any bytes, and data of an exchange by GSSAPI, SSPI or SASL isn't looked at, nor what follows the number of
/// a method that no server has.
#[unsafe(no_mangle)]
pub extern "C" fn pgmsg_read_end(
    alloc: Global,
    tag: u8,
    body: &[u8],
    fault: &mut PgmsgFault,
) -> isize
    ensures end { IfRead result (GivesEnd tag body.now) }
    ensures fault { RefusesFor (IsEndFault tag body.now) fault.old fault.new result }
    ensures left { LeavesFault body.now fault.old fault.new result }
{
    let kind = match BackendMessageFormat::try_from_u8(tag) {
        Ok(kind) => kind,
        Err(unknown) => return report(alloc, unknown, fault) as isize,
    };
    match end_of(kind, body) {
        Ok(end) => end as isize,
        Err(why) => report(alloc, why.into(), fault) as isize,
    }
}

fn end_of(kind: BackendMessageFormat, body: &[u8]) -> Result<usize, ProtocolFault>
    ensures end { IfOk result (EndsAt (layout kind).format body.now 0) }
    ensures within { OnOk result (length body.now ≤ max_body) }
    ensures fault { IfErr result (IsBodyFault (IsFaultOf (layout kind).format) body.now) }
{
    check_body(body)?;
    body_end(kind, body)
}
