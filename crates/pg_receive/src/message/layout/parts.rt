//! Where the parts of a body end that has no list, or one whose items are of one length.

ghost use Rattle.std.specs.Prelude.{◌≡◌, IfOk, IfErr};
ghost use Rattle.pg_format.specs.Format.{IsFaultOf};
ghost use Rattle.pg_format.specs.Format.Lists.{counted_least};
ghost use Rattle.pg_format.specs.Format.Parts.{until_nul, be_u32, be_i8, be_i16, remaining};
ghost use Rattle.pg_format.specs.Format.Sequences.{dep_pair, ◌⨾◌};
ghost use Rattle.pg_format.specs.Messages.{column_codes, backend_key};
ghost use Rattle.pg_format.specs.Format.Places.{EndsAt};
ghost use Rattle.pg_receive.specs.Layout.{asked, is_alone, status};

use super::lists::names_end;
use crate::message::copy::code_count;
use crate::message::{RawKeyData, ReadyForQuery, text_at};
use pg_base::ProtocolFault;
use pg_base::io::{bytes_at, i8_at, i16_at, u16_at, u32_at};

// The numbers of the methods after which nothing follows.
const OK: u32 = 0;

const KERBEROS_V5: u32 = 2;

const CLEARTEXT_PASSWORD: u32 = 3;

const SCM_CREDENTIAL: u32 = 6;

const GSS: u32 = 7;

const SSPI: u32 = 9;

// The number of the method after which a salt follows.
const MD5_PASSWORD: u32 = 5;

// The number of the method after which names follow.
const SASL: u32 = 10;

/// The end of a request for authentication.
pub(super) fn request_end(body: &[u8]) -> Result<usize, ProtocolFault>
    ensures end { IfOk result (EndsAt (dep_pair be_u32 asked) body.now 0) }
    ensures fault { IfErr result (IsFaultOf (dep_pair be_u32 asked) body.now) }
{
    let method = u32_at(body, 0)?;
    if is_alone(method) {
        return Ok(4);
    }
    match method {
        MD5_PASSWORD => {
            bytes_at(body, 4, 4)?;
            Ok(8)
        }
        SASL => names_end(body, 4),
        _ => Ok(body.len()),
    }
}

// Whether nothing follows the number of a method.
fn is_alone(method: u32) -> bool
    ensures { result ≡ is_alone method }
{
    method == OK
        || method == KERBEROS_V5
        || method == CLEARTEXT_PASSWORD
        || method == SCM_CREDENTIAL
        || method == GSS
        || method == SSPI
}

/// The end of a session's process and its key.
pub(super) fn key_end(body: &[u8]) -> Result<usize, ProtocolFault>
    ensures end { IfOk result (EndsAt backend_key body.now 0) }
    ensures fault { IfErr result (IsFaultOf backend_key body.now) }
{
    RawKeyData::read(body)?;
    Ok(body.len())
}

/// The end of the tag of a command.
pub(super) fn tag_end(body: &[u8]) -> Result<usize, ProtocolFault>
    ensures end { IfOk result (EndsAt until_nul body.now 0) }
    ensures fault { IfErr result (IsFaultOf until_nul body.now) }
{
    let (_tag, end) = text_at(body, 0)?;
    Ok(end)
}

/// The end of the data of a COPY.
pub(super) fn data_end(body: &[u8]) -> Result<usize, ProtocolFault>
    ensures end { IfOk result (EndsAt remaining body.now 0) }
    ensures fault { IfErr result (IsFaultOf remaining body.now) }
{
    Ok(body.len())
}

/// The end of the formats of a COPY.
pub(super) fn codes_end(body: &[u8]) -> Result<usize, ProtocolFault>
    ensures end { IfOk result (EndsAt (be_i8 ⨾ dep_pair be_i16 column_codes) body.now 0) }
    ensures fault { IfErr result (IsFaultOf (be_i8 ⨾ dep_pair be_i16 column_codes) body.now) }
{
    i8_at(body, 0)?;
    let columns = code_count(i16_at(body, 1)?);
    bytes_at(body, 3, 2 * columns)?;
    Ok(3 + 2 * columns)
}

/// The end of a notification.
pub(super) fn notification_end(body: &[u8]) -> Result<usize, ProtocolFault>
    ensures end { IfOk result (EndsAt (be_u32 ⨾ until_nul ⨾ until_nul) body.now 0) }
    ensures fault { IfErr result (IsFaultOf (be_u32 ⨾ until_nul ⨾ until_nul) body.now) }
{
    u32_at(body, 0)?;
    let (_channel, after) = text_at(body, 4)?;
    let (_payload, end) = text_at(body, after)?;
    Ok(end)
}

/// The end of the types of parameters.
pub(super) fn types_end(body: &[u8]) -> Result<usize, ProtocolFault>
    ensures end { IfOk result (EndsAt (counted_least 4 be_u32) body.now 0) }
    ensures fault { IfErr result (IsFaultOf (counted_least 4 be_u32) body.now) }
{
    let count = usize::from(u16_at(body, 0)?);
    bytes_at(body, 2, 4 * count)?;
    Ok(2 + 4 * count)
}

/// The end of a setting.
pub(super) fn setting_end(body: &[u8]) -> Result<usize, ProtocolFault>
    ensures end { IfOk result (EndsAt (until_nul ⨾ until_nul) body.now 0) }
    ensures fault { IfErr result (IsFaultOf (until_nul ⨾ until_nul) body.now) }
{
    let (_name, after) = text_at(body, 0)?;
    let (_value, end) = text_at(body, after)?;
    Ok(end)
}

/// The end of a status.
pub(super) fn status_end(body: &[u8]) -> Result<usize, ProtocolFault>
    ensures end { IfOk result (EndsAt status body.now 0) }
    ensures fault { IfErr result (IsFaultOf status body.now) }
{
    ReadyForQuery::read(body)?;
    Ok(1)
}
