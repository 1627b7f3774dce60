//! The body of a message that has none.

ghost use Rattle.std.specs.Prelude.{◌≤◌, length};
ghost use Rattle.pg_format.specs.Messages.{empty};
ghost use Rattle.pg_server.specs.Frontend.Message.{ReadsBody, ReadsRest};

use crate::frontend::error::FrontendFault;
use crate::frontend::offsets::end_at;

/// Reads the body of a CopyDone, a Flush, a Sync or a Terminate. Refused with `TrailingBytes` where it has
/// bytes. Documentation: "Message Formats", CopyDone (F & B), Flush (F), Sync (F), Terminate (F).
pub fn read_empty(body: &[u8]) -> Result<(), FrontendFault>
    ensures { ReadsBody empty (λ _. tt) body.now result }
{
    nothing_at(body, 0)
}

/// That nothing is left from an offset on.
pub(crate) fn nothing_at(body: &[u8], at: usize) -> Result<(), FrontendFault>
    requires { at ≤ length body.now }
    ensures { ReadsRest empty (λ _. tt) body.now at result }
{
    end_at(body, at)?;
    Ok(())
}
