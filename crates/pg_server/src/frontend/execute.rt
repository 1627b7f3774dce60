//! A portal that is run.

ghost use Rattle.pg_format.specs.Messages.{execute};
ghost use Rattle.pg_server.specs.Frontend.Page.{shown_execute};
ghost use Rattle.pg_server.specs.Frontend.Message.{ReadsBody};

use crate::frontend::error::FrontendFault;
use crate::frontend::offsets::{end_at, text_at, u32_at};

/// An Execute that is borrowed from its body. Documentation: "Message Formats", Execute (F).
#[derive(Drop)]
pub struct ExecuteRef<'a> {
    /// The portal to run: empty for the one without a name.
    pub portal: &'a [u8],
    /// The most rows to send back, 0 for all of them. A server reads a signed number, and takes one below
    /// 0 for all of them too.
    pub limit: u32,
}

impl<'a> ExecuteRef<'a> {
    /// Reads a body.
    pub fn read(body: &'a [u8]) -> Result<ExecuteRef<'a>, FrontendFault>
        ensures { ReadsBody execute shown_execute body.now result }
    {
        let (portal, end) = text_at(body, 0)?;
        let (limit, end) = u32_at(body, end)?;
        end_at(body, end)?;
        Ok(ExecuteRef { portal, limit })
    }
}
