//! How the data of a COPY is spelled, borrowed.

ghost use Rattle.std.specs.Prelude.{◌≤◌, length};
ghost use Rattle.pg_format.specs.Format.{ReadsAs};
ghost use Rattle.pg_format.specs.Messages.{copy_response};
ghost use Rattle.pg_receive.specs.CopyResponseRef.{response_borrowed};

use crate::message::column_formats::ColumnFormats;
use crate::message::copy::code_count;
use pg_base::ProtocolFault;
use pg_base::io::{MAX_BODY, bytes_at, i8_at, i16_at};

// The offsets of the count of columns and of the first code.
const COLUMNS: usize = 1;

const FIRST_CODE: usize = 3;

// The bytes of a format code.
const CODE_LENGTH: usize = 2;

/// How the data of a COPY is spelled, borrowed from the body of its message. A format code of 0 means text,
/// and 1 means binary. Documentation: "Message Formats", CopyInResponse (B), CopyOutResponse (B) and
/// CopyBothResponse (B).
#[derive(Clone, Copy)]
pub struct CopyResponseRef<'a> {
    /// The format of the data as a whole.
    pub format: i8,
    /// How many columns there are. A count below 0 means none.
    pub num_columns: i16,
    /// The format of each column.
    pub format_codes: ColumnFormats<'a>,
}

impl<'a> CopyResponseRef<'a> {
    /// Reads a body of at most [`MAX_BODY`] bytes. Its value and its faults are those of
    /// [`CopyInResponse`](crate::message::CopyInResponse).
    pub fn read(body: &'a [u8]) -> Result<CopyResponseRef<'a>, ProtocolFault>
        requires { length body.now ≤ MAX_BODY }
        ensures { ReadsAs copy_response response_borrowed body.now result }
    {
        let format = i8_at(body, 0)?;
        let num_columns = i16_at(body, COLUMNS)?;
        let count = code_count(num_columns);
        bytes_at(body, FIRST_CODE, CODE_LENGTH * count)?;
        let (format_codes, _end) = ColumnFormats::read(body, FIRST_CODE, count)?;
        Ok(CopyResponseRef {
            format,
            num_columns,
            format_codes,
        })
    }
}
