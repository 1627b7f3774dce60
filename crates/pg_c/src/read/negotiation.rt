//! The version of the protocol that a server speaks in place of the one that was asked for.

ghost use Rattle.std.specs.Prelude.{◌≡◌, ◌≤◌, ◌<ℤ◌, pos, length, OnOk, IfOk, IfErr};
ghost use Rattle.pg_format.specs.Format.{IsFaultOf};
ghost use Rattle.pg_format.specs.Messages.{negotiate_protocol_version};
ghost use Rattle.pg_format.specs.Received.{max_body};
ghost use Rattle.pg_c.specs.Read.{IfRead, IfCount, IsBodyFault, RefusesBody, LeavesRest};
ghost use Rattle.pg_c.specs.Read.Negotiation.{ReadsNegotiation, GivesOptions};

use crate::place::PgmsgSpan;
use crate::read::check_body;
use crate::refusal::{PgmsgFault, report};
use pg_base::ProtocolFault;
use pg_base::io::{bytes_at, u16_at, u32_at};
use pg_receive::message::text_at;
use std::alloc::Global;

// The bytes of the version, and those before the first option.
const VERSION_LENGTH: usize = 4;

const FIRST_OPTION: usize = 8;

/// The newest version of the protocol that a server speaks, by its two halves: `major` is 3 of PostgreSQL's
/// servers, and 0 where the server sends the minor version alone.
#[repr(C)]
#[derive(Clone, Copy)]
pub struct PgmsgNegotiation {
    pub major: u16,
    pub minor: u16,
}

/// What a server doesn't speak, by the body of its NegotiateProtocolVersion: how many options of the
/// Startup it doesn't know. As many of their names as there is room for are written; the rest are read too.
#[unsafe(no_mangle)]
pub extern "C" fn pgmsg_read_negotiate_version(
    alloc: Global,
    body: &[u8],
    version: &mut PgmsgNegotiation,
    options: &mut [PgmsgSpan],
    fault: &mut PgmsgFault,
) -> isize
    ensures value { IfRead result (ReadsNegotiation body.now version.new options.old options.new) }
    ensures fault { RefusesBody negotiate_protocol_version body.now fault.old fault.new result }
    ensures front { result <ℤ pos 0 → GivesOptions body.now options.old options.new }
    ensures left { LeavesRest body.now fault.old fault.new version.old version.new result }
{
    match options_of(body, version, options) {
        Ok(count) => count as isize,
        Err(why) => report(alloc, why.into(), fault) as isize,
    }
}

fn options_of(
    body: &[u8],
    version: &mut PgmsgNegotiation,
    options: &mut [PgmsgSpan],
) -> Result<usize, ProtocolFault>
    ensures small { IfOk result (λ count. count ≤ 4294967295) }
    ensures value { IfCount result (ReadsNegotiation body.now version.new options.old options.new) }
    ensures within { OnOk result (length body.now ≤ max_body) }
    ensures fault { IfErr result (IsBodyFault (IsFaultOf negotiate_protocol_version) body.now) }
    ensures front { IfErr result (λ _. GivesOptions body.now options.old options.new) }
    ensures kept { IfErr result (λ _. version.new ≡ version.old) }
{
    check_body(body)?;
    bytes_at(body, 0, VERSION_LENGTH)?;
    let major = u16_at(body, 0)?;
    let minor = u16_at(body, 2)?;
    let count = u32_at(body, VERSION_LENGTH)? as usize;
    let mut at = FIRST_OPTION;
    for index in 0..count {
        let (option, end) = text_at(body, at)?;
        if index < options.len() {
            options[index] = PgmsgSpan {
                at,
                len: option.len(),
            };
        }
        at = end;
    }
    *version = PgmsgNegotiation { major, minor };
    Ok(count)
}
