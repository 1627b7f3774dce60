//! The messages of a COPY.

ghost use Rattle.std.specs.Prelude.{◌≡◌, ℕ, ◌≤◌, List, length};
ghost use Rattle.pg_base.specs.declared.format.BackendMessageFormat.TheVariants as formats;
ghost use Rattle.pg_format.specs.Messages.{columns_of, copy_response};
ghost use Rattle.pg_receive.specs.Copy.{shown_response, FormatsNeedsNoMemory};
ghost use Rattle.pg_format.specs.Received.{DecodesBody};

use crate::message::BackendMessage;
use bytes::Bytes;
use pg_base::io::{MAX_BODY, bytes_at, i8_at, i16_at};
use pg_base::{BackendMessageFormat, Error};
use std::alloc::Global;

// The offsets of the count of columns and of the first code.
const COLUMNS: usize = 1;

const FIRST_CODE: usize = 3;

// The bytes of a format code.
const CODE_LENGTH: usize = 2;

/// How the data of a COPY is spelled. A format code of 0 means text, and 1 means binary.
#[derive(Drop)]
pub struct CopyResponseData {
    /// The format of the data as a whole.
    pub format: i8,
    /// How many columns there are. A count below 0 means none.
    pub num_columns: i16,
    /// The format of each column.
    pub format_codes: Vec<i16>,
}

/// The server is ready for the data of a COPY. Documentation: "Message Formats", CopyInResponse (B).
#[derive(Drop)]
pub struct CopyInResponse(pub CopyResponseData);

/// The server is about to send the data of a COPY. Documentation: "Message Formats",
/// CopyOutResponse (B).
#[derive(Drop)]
pub struct CopyOutResponse(pub CopyResponseData);

impl BackendMessage for CopyInResponse {
    ghost use Rattle.pg_format.specs.Messages.{CopyResponse, copy_response};
    ghost use Rattle.pg_format.proofs.FormatLaws.FromServer.{lawful_copy_response};
    ghost use Rattle.pg_receive.specs.Copy.{shown_response, FormatsNeedsNoMemory};

    const FORMAT: BackendMessageFormat = BackendMessageFormat::CopyInResponse;

    ghost FORMAT = { formats.CopyInResponse };

    ghost Shown = { CopyResponse };

    ghost shown = { λ response. shown_response response.0 };

    ghost format = { copy_response };

    ghost NeedsNoMemory = { FormatsNeedsNoMemory };

    fn decode_body(alloc: Global, buf: Bytes) -> Result<Self, Error> {
        Ok(CopyInResponse(decode_formats(alloc, buf.as_slice())?))
    }

    ghost lawful = { lawful_copy_response };
}

impl BackendMessage for CopyOutResponse {
    ghost use Rattle.pg_format.specs.Messages.{CopyResponse, copy_response};
    ghost use Rattle.pg_format.proofs.FormatLaws.FromServer.{lawful_copy_response};
    ghost use Rattle.pg_receive.specs.Copy.{shown_response, FormatsNeedsNoMemory};

    const FORMAT: BackendMessageFormat = BackendMessageFormat::CopyOutResponse;

    ghost FORMAT = { formats.CopyOutResponse };

    ghost Shown = { CopyResponse };

    ghost shown = { λ response. shown_response response.0 };

    ghost format = { copy_response };

    ghost NeedsNoMemory = { FormatsNeedsNoMemory };

    fn decode_body(alloc: Global, buf: Bytes) -> Result<Self, Error> {
        Ok(CopyOutResponse(decode_formats(alloc, buf.as_slice())?))
    }

    ghost lawful = { lawful_copy_response };
}

fn decode_formats(alloc: Global, body: &[u8]) -> Result<CopyResponseData, Error>
    requires { length body.now ≤ MAX_BODY }
    ensures { DecodesBody copy_response FormatsNeedsNoMemory shown_response body.now result }
{
    let format = i8_at(body, 0)?;
    let num_columns = i16_at(body, COLUMNS)?;
    let count = code_count(num_columns);
    bytes_at(body, FIRST_CODE, CODE_LENGTH * count)?;
    let mut format_codes = Vec::with_capacity(alloc, count)?;
    for index in 0..count {
        format_codes.push_reserved(i16_at(body, FIRST_CODE + CODE_LENGTH * index)?);
    }
    Ok(CopyResponseData {
        format,
        num_columns,
        format_codes,
    })
}

/// How many codes follow a count of columns.
pub(super) fn code_count(num_columns: i16) -> usize
    ensures { result ≡ columns_of num_columns }
{
    usize::try_from(num_columns).unwrap_or(0)
}
