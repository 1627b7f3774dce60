//! A statement that is prepared.

ghost use Rattle.pg_format.specs.Messages.{parse};
ghost use Rattle.pg_server.specs.Frontend.Message.{ReadsBody};
ghost use Rattle.pg_server.specs.Frontend.Page.{shown_parse};

use crate::frontend::error::FrontendFault;
use crate::frontend::offsets::{end_at, text_at};
use crate::frontend::parameter_types::{ParameterTypes, types_at};

/// A Parse that is borrowed from its body. Documentation: "Message Formats", Parse (F).
#[derive(Drop)]
pub struct ParseRef<'a> {
    /// The statement to prepare: empty for the one without a name.
    pub statement: &'a [u8],
    /// The text of the query.
    pub query: &'a [u8],
    /// The types of the parameters.
    pub types: ParameterTypes<'a>,
}

impl<'a> ParseRef<'a> {
    /// Reads a body.
    pub fn read(body: &'a [u8]) -> Result<ParseRef<'a>, FrontendFault>
        ensures { ReadsBody parse shown_parse body.now result }
    {
        let (statement, end) = text_at(body, 0)?;
        let (query, end) = text_at(body, end)?;
        let (types, end) = types_at(body, end)?;
        end_at(body, end)?;
        Ok(ParseRef {
            statement,
            query,
            types,
        })
    }
}
