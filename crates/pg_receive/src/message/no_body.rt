//! A message that has no body.

ghost use Rattle.pg_format.specs.Format.{ReadsAs};
ghost use Rattle.pg_format.specs.Messages.{empty};

use pg_base::ProtocolFault;

/// Whether a message has no body, as the documentation says of BindComplete, CloseComplete, CopyDone,
/// EmptyQueryResponse, NoData, ParseComplete and PortalSuspended, whose bodies are else ignored.
/// Refused with `TrailingBytes` from offset 0 on where it has one.
pub fn check_no_body(body: &[u8]) -> Result<(), ProtocolFault>
    ensures { ReadsAs empty (λ _. tt) body.now result }
{
    if !body.is_empty() {
        return Err(ProtocolFault::TrailingBytes { at: 0 });
    }
    Ok(())
}
