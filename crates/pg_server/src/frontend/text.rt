//! The text of a message that has nothing else.

ghost use Rattle.pg_format.specs.Messages.{text};
ghost use Rattle.pg_server.specs.Frontend.Message.{ReadsBody};

use crate::frontend::error::FrontendFault;
use crate::frontend::offsets::{end_at, text_at};

/// Reads the body of a Query, a CopyFail or a PasswordMessage: its text, without the NUL.
/// Documentation: "Message Formats", Query (F), CopyFail (F), PasswordMessage (F).
pub fn read_text(body: &[u8]) -> Result<&[u8], FrontendFault>
    ensures { ReadsBody text (λ text. text.now) body.now result }
{
    let (text, end) = text_at(body, 0)?;
    end_at(body, end)?;
    Ok(text)
}
