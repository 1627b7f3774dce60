//! Where the parts of a body end, for who wants no byte after them and no list without its end.

mod lists;
mod parts;

ghost use Rattle.std.specs.Prelude.{◌≤◌, length, IfOk, IfErr};
ghost use Rattle.pg_format.specs.Format.{IsFaultOf};
ghost use Rattle.pg_format.specs.Format.Places.{EndsAt};
ghost use Rattle.pg_receive.specs.Layout.{layout, exact_layout};

use lists::{columns_end, fields_end, row_end};
use parts::{
    codes_end, data_end, key_end, notification_end, request_end, setting_end, status_end, tag_end,
    types_end,
};
use pg_base::io::MAX_BODY;
use pg_base::{BackendMessageFormat, ProtocolFault};

/// The offset after the last part of a body of at most [`MAX_BODY`] bytes, as the documentation lists the
/// parts of its kind. Texts are any bytes, keys have 4 to 256 bytes, and what follows the number of a
/// method of authentication is known for 0, 3, 5 and 10; of others, and in the data of a COPY, nothing is
/// looked at.
///
/// Refused where a part can't be read, also where no byte 0 ends the fields of an error or the names of
/// mechanisms, which the reader of the kind passes over.
pub fn body_end(kind: BackendMessageFormat, body: &[u8]) -> Result<usize, ProtocolFault>
    requires { length body.now ≤ MAX_BODY }
    ensures end { IfOk result (EndsAt (layout kind).format body.now 0) }
    ensures fault { IfErr result (IsFaultOf (layout kind).format body.now) }
{
    use BackendMessageFormat as Format;
    match kind {
        Format::Authentication => request_end(body),
        Format::BackendKeyData => key_end(body),
        Format::BindComplete => Ok(0),
        Format::CloseComplete => Ok(0),
        Format::CommandComplete => tag_end(body),
        Format::CopyData => data_end(body),
        Format::CopyDone => Ok(0),
        Format::CopyInResponse => codes_end(body),
        Format::CopyOutResponse => codes_end(body),
        Format::DataRow => row_end(body),
        Format::EmptyQueryResponse => Ok(0),
        Format::ErrorResponse => fields_end(body),
        Format::NoData => Ok(0),
        Format::NoticeResponse => fields_end(body),
        Format::NotificationResponse => notification_end(body),
        Format::ParameterDescription => types_end(body),
        Format::ParameterStatus => setting_end(body),
        Format::ParseComplete => Ok(0),
        Format::PortalSuspended => Ok(0),
        Format::ReadyForQuery => status_end(body),
        Format::RowDescription => columns_end(body),
    }
}

/// Whether a body of at most [`MAX_BODY`] bytes consists of the parts of its kind, as [`body_end`] finds
/// them, and nothing else. Refused as there, and with `TrailingBytes` from the offset on where bytes follow.
pub fn check_exact(kind: BackendMessageFormat, body: &[u8]) -> Result<(), ProtocolFault>
    requires { length body.now ≤ MAX_BODY }
    ensures exact { IfOk result (λ _. EndsAt (exact_layout kind) body.now 0 (length body.now)) }
    ensures fault { IfErr result (IsFaultOf (exact_layout kind) body.now) }
{
    let end = body_end(kind, body)?;
    if end < body.len() {
        return Err(ProtocolFault::TrailingBytes { at: end });
    }
    Ok(())
}
