//! The first answer of a client to a request for SASL.

ghost use Rattle.std.specs.Prelude.{◌≡◌, ◌≤ℤ◌, pos};
ghost use Rattle.pg_format.specs.Messages.{sasl_initial_response};
ghost use Rattle.pg_c.specs.Client.{RefusesClientBody};
ghost use Rattle.pg_c.specs.Client.SaslInitial.{ReadsSaslInitial};
ghost use Rattle.pg_c.specs.Read.{LeavesRest};

use crate::place::PgmsgSpan;
use crate::read::check_body;
use crate::read::row::{PgmsgCell, place_of_cell};
use crate::refusal::{PgmsgFault, report, report_client};
use pg_server::frontend::SaslInitialRef;
use std::alloc::Global;

/// The mechanism that a client chose, and its first message: its `len` is -1 where it sent none.
#[repr(C)]
#[derive(Clone, Copy)]
pub struct PgmsgSaslInitial {
    pub mechanism: PgmsgSpan,
    pub response: PgmsgCell,
}

/// A SASLInitialResponse, by its body; a SASLResponse is the bytes of its body. 0, or why it is refused.
#[unsafe(no_mangle)]
pub extern "C" fn pgmsg_read_sasl_initial(
    alloc: Global,
    body: &[u8],
    initial: &mut PgmsgSaslInitial,
    fault: &mut PgmsgFault,
) -> i32
    ensures result { result ≤ℤ pos 0 }
    ensures value { result ≡ pos 0 → ReadsSaslInitial body.now initial.new }
    ensures fault { RefusesClientBody sasl_initial_response body.now fault.old fault.new result }
    ensures left { LeavesRest body.now fault.old fault.new initial.old initial.new result }
{
    if let Err(why) = check_body(body) {
        return report(alloc, why.into(), fault);
    }
    match SaslInitialRef::read(body) {
        Ok(read) => {
            let mechanism = PgmsgSpan {
                at: 0,
                len: read.mechanism.len(),
            };
            *initial = PgmsgSaslInitial {
                mechanism,
                response: place_of_cell(mechanism.len + 1, read.response, body.len()),
            };
            0
        }
        Err(why) => report_client(alloc, why, fault),
    }
}
