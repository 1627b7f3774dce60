//! A session whose query is to be cancelled.

ghost use Rattle.std.specs.Prelude.{◌≤◌, length};
ghost use Rattle.pg_format.specs.Messages.{cancel_request};
ghost use Rattle.pg_server.specs.Frontend.Page.{shown_cancel};
ghost use Rattle.pg_server.specs.Frontend.Message.{ReadsRest};

use crate::frontend::error::FrontendFault;
use crate::frontend::offsets::u32_at;

// The fewest and the most bytes of a key.
const LEAST_KEY: usize = 4;

const MOST_KEY: usize = 256;

/// A CancelRequest that is borrowed from its body. Documentation: "Message Formats", CancelRequest (F).
#[derive(Drop)]
pub struct CancelRequestRef<'a> {
    /// The process of the session.
    pub process_id: u32,
    /// Its key, of 4 to 256 bytes.
    pub secret_key: &'a [u8],
}

/// The request after its code.
pub(crate) fn cancel_at(body: &[u8], at: usize) -> Result<CancelRequestRef<'_>, FrontendFault>
    requires { at ≤ length body.now }
    ensures { ReadsRest cancel_request shown_cancel body.now at result }
{
    let (process_id, end) = u32_at(body, at)?;
    let secret_key = &body[end..];
    if secret_key.len() < LEAST_KEY || secret_key.len() > MOST_KEY {
        return Err(FrontendFault::KeyLength(secret_key.len()));
    }
    Ok(CancelRequestRef {
        process_id,
        secret_key,
    })
}
