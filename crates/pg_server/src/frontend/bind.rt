//! A portal that is made of a prepared statement.

ghost use Rattle.pg_format.specs.Messages.{bind};
ghost use Rattle.pg_server.specs.Frontend.Page.{shown_bind};
ghost use Rattle.pg_server.specs.Frontend.Message.{ReadsBody};

use crate::frontend::error::FrontendFault;
use crate::frontend::format_codes::{FormatCodes, codes_at};
use crate::frontend::offsets::{end_at, text_at};
use crate::frontend::values::{Values, values_at};

/// A Bind that is borrowed from its body. Documentation: "Message Formats", Bind (F).
#[derive(Drop)]
pub struct BindRef<'a> {
    /// The portal to make: empty for the one without a name.
    pub portal: &'a [u8],
    /// The prepared statement to make it of: empty for the one without a name.
    pub statement: &'a [u8],
    /// The formats of the parameters.
    pub formats: FormatCodes<'a>,
    /// The values of the parameters.
    pub values: Values<'a>,
    /// The formats of the result's columns.
    pub result_formats: FormatCodes<'a>,
}

impl<'a> BindRef<'a> {
    /// Reads a body. Whether there are as many formats as values isn't tested.
    pub fn read(body: &'a [u8]) -> Result<BindRef<'a>, FrontendFault>
        ensures { ReadsBody bind shown_bind body.now result }
    {
        let (portal, end) = text_at(body, 0)?;
        let (statement, end) = text_at(body, end)?;
        let (formats, end) = codes_at(body, end)?;
        let (values, end) = values_at(body, end)?;
        let (result_formats, end) = codes_at(body, end)?;
        end_at(body, end)?;
        Ok(BindRef {
            portal,
            statement,
            formats,
            values,
            result_formats,
        })
    }
}
