//! A message to a client with all that it borrows, as a line of `encode` names it.

use pg_base::io::Oid;
use pg_server::backend::{
    CopyDirection, NoticeKind, OutboundBackendKeyData, OutboundColumn, OutboundCopyResponse,
    OutboundNoBody, OutboundNoticeField, OutboundNotification, OutboundParameterStatus,
    OutboundReadyForQuery,
};

/// A message to a client.
#[derive(Drop)]
pub enum Reply {
    Authentication(AuthenticationRequest),
    BackendKeyData(KeyData),
    CommandComplete(Vec<u8>),
    CopyData(Vec<u8>),
    CopyResponse(CopyResponse),
    DataRow(Vec<Option<Vec<u8>>>),
    FunctionCallResponse(Option<Vec<u8>>),
    NegotiateProtocolVersion(Negotiation),
    NoBody(OutboundNoBody),
    Notice(OwnedNotice),
    Notification(OwnedNotification),
    ParameterDescription(Vec<Oid>),
    ParameterStatus(OwnedSetting),
    ReadyForQuery(OutboundReadyForQuery),
    RowDescription(Vec<OwnedColumn>),
}

/// A request for authentication.
#[derive(Drop)]
pub enum AuthenticationRequest {
    Ok,
    CleartextPassword,
    Md5Password([u8; 4]),
    Sasl(Vec<Vec<u8>>),
    SaslContinue(Vec<u8>),
    SaslFinal(Vec<u8>),
}

/// What a cancel request has to name.
#[derive(Drop)]
pub struct KeyData {
    pub process_id: u32,
    pub secret_key: Vec<u8>,
}

impl KeyData {
    pub fn outbound(&self) -> OutboundBackendKeyData<'_> {
        OutboundBackendKeyData {
            process_id: self.process_id,
            secret_key: self.secret_key.as_slice(),
        }
    }
}

/// How the data of a COPY is spelled.
#[derive(Drop)]
pub struct CopyResponse {
    pub direction: CopyDirection,
    pub format: i8,
    pub format_codes: Vec<i16>,
}

impl CopyResponse {
    pub fn outbound(&self) -> OutboundCopyResponse<'_> {
        OutboundCopyResponse {
            direction: self.direction,
            format: self.format,
            format_codes: self.format_codes.as_slice(),
        }
    }
}

/// What of the protocol the server doesn't speak.
#[derive(Drop)]
pub struct Negotiation {
    pub minor: u16,
    pub options: Vec<Vec<u8>>,
}

/// An error or a notice.
#[derive(Drop)]
pub struct OwnedNotice {
    pub kind: NoticeKind,
    pub fields: Vec<OwnedField>,
}

/// A field of an error or a notice.
#[derive(Drop)]
pub struct OwnedField {
    pub letter: u8,
    pub text: Vec<u8>,
}

impl OwnedField {
    pub fn outbound(&self) -> OutboundNoticeField<'_> {
        OutboundNoticeField {
            letter: self.letter,
            text: self.text.as_slice(),
        }
    }
}

/// A notification of a channel.
#[derive(Drop)]
pub struct OwnedNotification {
    pub process_id: u32,
    pub channel: Vec<u8>,
    pub payload: Vec<u8>,
}

impl OwnedNotification {
    pub fn outbound(&self) -> OutboundNotification<'_> {
        OutboundNotification {
            process_id: self.process_id,
            channel: self.channel.as_slice(),
            payload: self.payload.as_slice(),
        }
    }
}

/// A setting of the session.
#[derive(Drop)]
pub struct OwnedSetting {
    pub name: Vec<u8>,
    pub value: Vec<u8>,
}

impl OwnedSetting {
    pub fn outbound(&self) -> OutboundParameterStatus<'_> {
        OutboundParameterStatus {
            name: self.name.as_slice(),
            value: self.value.as_slice(),
        }
    }
}

/// A column of a result.
#[derive(Drop)]
pub struct OwnedColumn {
    pub name: Vec<u8>,
    pub table: Oid,
    pub attribute: i16,
    pub data_type: Oid,
    pub size: i16,
    pub modifier: i32,
    pub format: i16,
}

impl OwnedColumn {
    pub fn outbound(&self) -> OutboundColumn<'_> {
        OutboundColumn {
            name: self.name.as_slice(),
            table: self.table,
            attribute: self.attribute,
            data_type: self.data_type,
            size: self.size,
            modifier: self.modifier,
            format: self.format,
        }
    }
}
