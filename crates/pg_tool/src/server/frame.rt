//! The frame that a message becomes.

use crate::server::reply::{
    AuthenticationRequest, Negotiation, OwnedColumn, OwnedField, OwnedNotice, Reply,
};
use pg_base::Error;
use pg_server::backend::{
    OutboundAuthentication, OutboundColumn, OutboundCommandComplete, OutboundCopyData,
    OutboundDataRow, OutboundFunctionCallResponse, OutboundNegotiateProtocolVersion,
    OutboundNotice, OutboundNoticeField, OutboundParameterDescription, OutboundRowDescription,
    encode,
};
use std::alloc::{AllocError, Global};

/// Adds the frame of a message to others, which stay as they were where it is refused.
pub fn push_frame(alloc: Global, reply: &Reply, frames: &mut Vec<u8>) -> Result<(), Error> {
    match reply {
        Reply::Authentication(request) => push_request(alloc, request, frames),
        Reply::BackendKeyData(key) => encode(&key.outbound(), frames),
        Reply::CommandComplete(command) => push_command(command.as_slice(), frames),
        Reply::CopyData(bytes) => encode(&OutboundCopyData(bytes.as_slice()), frames),
        Reply::CopyResponse(response) => encode(&response.outbound(), frames),
        Reply::DataRow(values) => push_row(alloc, values.as_slice(), frames),
        Reply::FunctionCallResponse(value) => push_result(value, frames),
        Reply::NegotiateProtocolVersion(version) => push_version(alloc, version, frames),
        Reply::NoBody(message) => encode(message, frames),
        Reply::Notice(notice) => push_notice(alloc, notice, frames),
        Reply::Notification(notification) => encode(&notification.outbound(), frames),
        Reply::ParameterDescription(types) => {
            let types = types.as_slice();
            encode(&OutboundParameterDescription { types }, frames)
        }
        Reply::ParameterStatus(setting) => encode(&setting.outbound(), frames),
        Reply::ReadyForQuery(status) => encode(status, frames),
        Reply::RowDescription(columns) => push_columns(alloc, columns.as_slice(), frames),
    }
}

fn push_request(
    alloc: Global,
    request: &AuthenticationRequest,
    frames: &mut Vec<u8>,
) -> Result<(), Error> {
    match request {
        AuthenticationRequest::Ok => encode(&OutboundAuthentication::Ok, frames),
        AuthenticationRequest::CleartextPassword => encode(
            &OutboundAuthentication::CleartextPassword,
            frames,
        ),
        AuthenticationRequest::Md5Password(salt) => encode(
            &OutboundAuthentication::Md5Password(*salt),
            frames,
        ),
        AuthenticationRequest::Sasl(names) => {
            let names = borrowed(alloc, names.as_slice())?;
            encode(&OutboundAuthentication::Sasl(names.as_slice()), frames)
        }
        AuthenticationRequest::SaslContinue(content) => {
            encode(
                &OutboundAuthentication::SaslContinue(content.as_slice()),
                frames,
            )
        }
        AuthenticationRequest::SaslFinal(content) => {
            encode(
                &OutboundAuthentication::SaslFinal(content.as_slice()),
                frames,
            )
        }
    }
}

fn push_command(command: &[u8], frames: &mut Vec<u8>) -> Result<(), Error> {
    encode(&OutboundCommandComplete { command }, frames)
}

fn push_row(alloc: Global, values: &[Option<Vec<u8>>], frames: &mut Vec<u8>) -> Result<(), Error> {
    let values: Vec<Option<&[u8]>> = values.iter().map(borrowed_value).collect(alloc)?;
    let values = values.as_slice();
    encode(&OutboundDataRow { values }, frames)
}

fn push_result(value: &Option<Vec<u8>>, frames: &mut Vec<u8>) -> Result<(), Error> {
    let value = borrowed_value(value);
    encode(&OutboundFunctionCallResponse { value }, frames)
}

fn push_version(alloc: Global, version: &Negotiation, frames: &mut Vec<u8>) -> Result<(), Error> {
    let minor = version.minor;
    let options = borrowed(alloc, version.options.as_slice())?;
    let options = options.as_slice();
    encode(&OutboundNegotiateProtocolVersion { minor, options }, frames)
}

fn push_notice(alloc: Global, notice: &OwnedNotice, frames: &mut Vec<u8>) -> Result<(), Error> {
    let kind = notice.kind;
    let fields: Vec<OutboundNoticeField<'_>> = notice
        .fields
        .iter()
        .map(OwnedField::outbound)
        .collect(alloc)?;
    let fields = fields.as_slice();
    encode(&OutboundNotice { kind, fields }, frames)
}

fn push_columns(alloc: Global, columns: &[OwnedColumn], frames: &mut Vec<u8>) -> Result<(), Error> {
    let columns: Vec<OutboundColumn<'_>> = columns
        .iter()
        .map(OwnedColumn::outbound)
        .collect(alloc)?;
    let columns = columns.as_slice();
    encode(&OutboundRowDescription { columns }, frames)
}

fn borrowed_value(value: &Option<Vec<u8>>) -> Option<&[u8]> {
    value.as_ref().map(|value| value.as_slice())
}

fn borrowed(alloc: Global, texts: &[Vec<u8>]) -> Result<Vec<&[u8]>, AllocError> {
    let mut borrowed = Vec::new(alloc);
    for text in texts {
        borrowed.push(text.as_slice())?;
    }
    Ok(borrowed)
}
