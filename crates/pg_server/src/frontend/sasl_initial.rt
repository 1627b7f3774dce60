//! The first answer of a client to a request for SASL.

ghost use Rattle.pg_format.specs.Messages.{sasl_initial_response};
ghost use Rattle.pg_server.specs.Frontend.Message.{ReadsBody};
ghost use Rattle.pg_server.specs.Frontend.Page.{shown_initial};

use crate::frontend::error::FrontendFault;
use crate::frontend::offsets::{end_at, text_at};
use crate::frontend::values::value_at;

/// A SASLInitialResponse that is borrowed from its body, which
/// [`PasswordPolymorphic`](crate::frontend::FrontendMessageRef::PasswordPolymorphic) has. A SASLResponse is
/// the bytes of its body, and a password is read by [`read_text`](crate::frontend::read_text).
/// Documentation: "Message Formats", SASLInitialResponse (F).
#[derive(Drop)]
pub struct SaslInitialRef<'a> {
    /// The mechanism that the client chose.
    pub mechanism: &'a [u8],
    /// Its first message, where it sent one.
    pub response: Option<&'a [u8]>,
}

impl<'a> SaslInitialRef<'a> {
    /// Reads a body.
    pub fn read(body: &'a [u8]) -> Result<SaslInitialRef<'a>, FrontendFault>
        ensures { ReadsBody sasl_initial_response shown_initial body.now result }
    {
        let (mechanism, end) = text_at(body, 0)?;
        let (response, end) = value_at(body, end)?;
        end_at(body, end)?;
        Ok(SaslInitialRef {
            mechanism,
            response,
        })
    }
}
