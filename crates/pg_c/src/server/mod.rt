//! Messages to a client, written at the front of the caller's bytes as those to a server are.
//!
//! Lists are read where the caller has them, and no memory is asked for.

pub mod authentication;
pub mod notices;
pub mod results;
pub mod rows;
pub mod session;

ghost use Rattle.pg_c.specs.Server.{PutsServerMessage};

use crate::refusal::number_of_fault;
use pg_server::backend::{OutboundMessage, write};

/// Writes a message.
#[inline]
pub(crate) fn put<M: OutboundMessage>(message: &M, out: &mut [u8]) -> isize
    ensures { PutsServerMessage (M.message message.now) out.old out.new result }
{
    match write(message, out) {
        Ok(len) => len as isize,
        Err(fault) => number_of_fault(fault) as isize,
    }
}
