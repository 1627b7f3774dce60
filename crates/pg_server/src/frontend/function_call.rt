//! A call of a function by its object id.

ghost use Rattle.pg_format.specs.Messages.{function_call};
ghost use Rattle.pg_server.specs.Frontend.Page.{shown_call};
ghost use Rattle.pg_server.specs.Frontend.Message.{ReadsBody};

use crate::frontend::error::FrontendFault;
use crate::frontend::format_codes::{FormatCodes, codes_at};
use crate::frontend::offsets::{end_at, u16_at, u32_at};
use crate::frontend::values::{Values, values_at};
use pg_base::io::Oid;

/// A FunctionCall that is borrowed from its body. Documentation: "Message Formats", FunctionCall (F).
#[derive(Drop)]
pub struct FunctionCallRef<'a> {
    /// The function.
    pub object_id: Oid,
    /// The formats of the arguments.
    pub formats: FormatCodes<'a>,
    /// The arguments.
    pub arguments: Values<'a>,
    /// The format code of the result: 0 is text and 1 binary.
    pub result_format: u16,
}

impl<'a> FunctionCallRef<'a> {
    /// Reads a body. Whether there are as many formats as arguments isn't tested.
    pub fn read(body: &'a [u8]) -> Result<FunctionCallRef<'a>, FrontendFault>
        ensures { ReadsBody function_call shown_call body.now result }
    {
        let (object_id, end) = u32_at(body, 0)?;
        let (formats, end) = codes_at(body, end)?;
        let (arguments, end) = values_at(body, end)?;
        let (result_format, end) = u16_at(body, end)?;
        end_at(body, end)?;
        Ok(FunctionCallRef {
            object_id: Oid(object_id),
            formats,
            arguments,
            result_format,
        })
    }
}
