//! A request for authentication by any method.

ghost use Rattle.pg_format.specs.Format.{ReadsAs};
ghost use Rattle.pg_receive.specs.Authentication.Raw.{raw_request, raw_request_of};

use super::METHOD_LENGTH;
use pg_base::ProtocolFault;
use pg_base::io::u32_at;

/// A request for authentication by any method, also one that
/// [`Authentication`](super::Authentication) doesn't know, borrowed from the body of its message.
/// Documentation: "Message Formats", AuthenticationOk (B) and those after it.
#[derive(Drop)]
pub struct RawAuthentication<'a> {
    /// The number of the method.
    pub method: u32,
    /// What follows the number, as it is.
    pub content: &'a [u8],
}

impl<'a> RawAuthentication<'a> {
    /// Reads a body. Refused with `Short` where it has fewer than four bytes.
    pub fn read(body: &'a [u8]) -> Result<RawAuthentication<'a>, ProtocolFault>
        ensures { ReadsAs raw_request raw_request_of body.now result }
    {
        let method = u32_at(body, 0)?;
        Ok(RawAuthentication {
            method,
            content: &body[METHOD_LENGTH..],
        })
    }
}
