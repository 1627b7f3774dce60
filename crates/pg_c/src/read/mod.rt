//! Messages from the server, read where they are.
//!
//! Bodies are those of the frames of `pgmsg_next_frame`. Places are in the bytes that were passed. A call
//! refuses by a number below 0, and then alone fills `fault`; an array of places holds at most the
//! items before the one that is broken.

pub mod authentication;
pub mod columns;
pub mod copy;
pub mod end;
pub mod fields;
pub mod frame;
pub mod function_result;
pub mod negotiation;
pub mod row;
pub mod status;

ghost use Rattle.std.specs.Prelude.{◌≤◌, length, OnOk, IfErr};
ghost use Rattle.pg_format.specs.Received.{max_body};
ghost use Rattle.pg_c.specs.Read.{IsTooLong};

use pg_base::ProtocolFault;
use pg_base::io::MAX_BODY;

/// Whether a message can have a body of this length.
pub(crate) fn check_body(body: &[u8]) -> Result<(), ProtocolFault>
    ensures ok { OnOk result (length body.now ≤ max_body) }
    ensures err { IfErr result (IsTooLong body.now) }
{
    if body.len() > MAX_BODY {
        return Err(ProtocolFault::BodyTooLong(body.len()));
    }
    Ok(())
}
