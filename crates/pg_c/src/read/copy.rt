//! How the data of a COPY is spelled.

ghost use Rattle.std.specs.Prelude.{◌≡◌, ◌≤◌, ◌<ℤ◌, pos, length, OnOk, IfOk, IfErr};
ghost use Rattle.pg_format.specs.Format.{IsFaultOf};
ghost use Rattle.pg_format.specs.Messages.{columns_of, copy_response};
ghost use Rattle.pg_format.specs.Received.{max_body};
ghost use Rattle.pg_c.specs.Read.Copy.{ReadsFormats, GivesCodes};
ghost use Rattle.pg_c.specs.Read.{IfRead, IfCount, IsBodyFault, RefusesBody, LeavesRest};

use crate::read::check_body;
use crate::refusal::{PgmsgFault, report};
use pg_base::ProtocolFault;
use pg_base::io::{bytes_at, i8_at, i16_at};
use std::alloc::Global;

// The offsets of the count of columns and of the first code.
const COLUMNS: usize = 1;

const FIRST_CODE: usize = 3;

const CODE_LENGTH: usize = 2;

/// The format of the data of a COPY, 0 for text and 1 for binary, and the number of columns, which may be below 0 for
/// none.
#[repr(C)]
#[derive(Clone, Copy)]
pub struct PgmsgCopyResponse {
    pub format: i8,
    pub columns: i16,
}

/// The format of the data of a COPY, by the body of a CopyInResponse, a CopyOutResponse or a
/// CopyBothResponse: how many columns have a code. As many codes as there is room for are written.
#[unsafe(no_mangle)]
pub extern "C" fn pgmsg_read_copy_response(
    alloc: Global,
    body: &[u8],
    response: &mut PgmsgCopyResponse,
    codes: &mut [i16],
    fault: &mut PgmsgFault,
) -> isize
    ensures formats { IfRead result (ReadsFormats body.now response.new codes.old codes.new) }
    ensures fault { RefusesBody copy_response body.now fault.old fault.new result }
    ensures front { result <ℤ pos 0 → GivesCodes body.now codes.old codes.new }
    ensures left { LeavesRest body.now fault.old fault.new response.old response.new result }
{
    match codes_of(body, response, codes) {
        Ok(count) => count as isize,
        Err(why) => report(alloc, why.into(), fault) as isize,
    }
}

fn codes_of(
    body: &[u8],
    response: &mut PgmsgCopyResponse,
    codes: &mut [i16],
) -> Result<usize, ProtocolFault>
    ensures small { IfOk result (λ count. count ≤ 65535) }
    ensures formats { IfCount result (ReadsFormats body.now response.new codes.old codes.new) }
    ensures within { OnOk result (length body.now ≤ max_body) }
    ensures fault { IfErr result (IsBodyFault (IsFaultOf copy_response) body.now) }
    ensures front { IfErr result (λ _. GivesCodes body.now codes.old codes.new) }
    ensures kept { IfErr result (λ _. response.new ≡ response.old) }
{
    check_body(body)?;
    let format = i8_at(body, 0)?;
    let columns = i16_at(body, COLUMNS)?;
    let count = code_count(columns);
    bytes_at(body, FIRST_CODE, CODE_LENGTH * count)?;
    for index in 0..count {
        let code = i16_at(body, FIRST_CODE + CODE_LENGTH * index)?;
        if index < codes.len() {
            codes[index] = code;
        }
    }
    *response = PgmsgCopyResponse { format, columns };
    Ok(count)
}

// How many codes follow a count of columns.
fn code_count(columns: i16) -> usize
    ensures { result ≡ columns_of columns }
{
    usize::try_from(columns).unwrap_or(0)
}
