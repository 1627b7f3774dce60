//! The fields of an error or a notice, and how grave it is.

ghost use Rattle.std.specs.Prelude.{◌≡◌, ◌≤◌, pos, length, OnOk, IfOk, IfErr};
ghost use Rattle.pg_receive.specs.Response.Fields.{fields_in};
ghost use Rattle.pg_receive.specs.Response.Severity.{severity_number};
ghost use Rattle.pg_format.specs.Format.{IsFaultOf};
ghost use Rattle.pg_receive.specs.Response.{notices};
ghost use Rattle.pg_format.specs.Received.{max_body};
ghost use Rattle.pg_c.specs.Read.Fields.{field_in, IsSeverityOf};
ghost use Rattle.pg_c.specs.Read.{AreGiven, IfRead, IsBodyFault, RefusesBody, LeavesFault};

use crate::place::PgmsgSpan;
use crate::refusal::{PgmsgFault, report};
use pg_base::ProtocolFault;
use pg_receive::message::{PgSeverity, severity_in, split_field};
use std::alloc::Global;

/// A field of an error or a notice, by its letter.
#[repr(C)]
#[derive(Clone, Copy)]
pub struct PgmsgField {
    pub letter: u8,
    pub value: PgmsgSpan,
}

/// The fields of an error or a notice, in order: how many there are. As many as there is room for are
/// written.
#[unsafe(no_mangle)]
pub extern "C" fn pgmsg_read_fields(body: &[u8], fields: &mut [PgmsgField]) -> usize
    ensures count { result ≡ length (fields_in body.now) }
    ensures given { AreGiven (field_in body.now) (fields_in body.now) fields.old fields.new }
{
    let mut rest = body;
    let mut at: usize = 0;
    let mut count: usize = 0;
    while let Some((letter, value, after)) = split_field(rest) {
        if count < fields.len() {
            let value = PgmsgSpan {
                at: at + 1,
                len: value.len(),
            };
            fields[count] = PgmsgField { letter, value };
        }
        at += value.len() + 2;
        count += 1;
        rest = after;
    }
    count
}

/// The severity of an error or a notice: 0 PANIC, 1 FATAL, 2 ERROR, 3 WARNING, 4 NOTICE, 5 DEBUG, 6 INFO, 7 LOG. Where
/// the message or the code isn't UTF-8, the call refuses with PGMSG_NOTICE_NOT_UTF8; a body of the field `V` alone is
/// read in any encoding.
#[unsafe(no_mangle)]
pub extern "C" fn pgmsg_read_severity(alloc: Global, body: &[u8], fault: &mut PgmsgFault) -> i32
    ensures severity { IfRead result (IsSeverityOf body.now) }
    ensures fault { RefusesBody notices body.now fault.old fault.new result }
    ensures left { LeavesFault body.now fault.old fault.new result }
{
    match severity_of(body) {
        Ok(severity) => severity as i32,
        Err(why) => report(alloc, why.into(), fault),
    }
}

#[tactic(auto, using(crate::proofs::ReadFieldsLemmas::severity_read, crate::proofs::ReadFieldsLemmas::severity_known, crate::proofs::ReadFieldsLemmas::severity_within, crate::proofs::ReadFieldsLemmas::severity_broken))]
fn severity_of(body: &[u8]) -> Result<PgSeverity, ProtocolFault>
    ensures severity { IfOk result (λ found. IsSeverityOf body.now (pos (severity_number found))) }
    ensures within { OnOk result (length body.now ≤ max_body) }
    ensures fault { IfErr result (IsBodyFault (IsFaultOf notices) body.now) }
{
    severity_in(body)
}
