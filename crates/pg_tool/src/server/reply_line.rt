//! What a line of `encode` names: one message to a client.

use crate::digits::hex_array;
use crate::fault::Fault;
use crate::server::reply::{
    AuthenticationRequest, CopyResponse, KeyData, Negotiation, OwnedColumn, OwnedField,
    OwnedNotice, OwnedNotification, OwnedSetting, Reply,
};
use crate::server::spelling::{FromWord, Parts, Word};
use pg_server::backend::{CopyDirection, NoticeKind, OutboundNoBody, OutboundReadyForQuery};
use std::alloc::Global;

/// The message that a line spells. A line that fits no form has the fault `bad`.
pub fn reply_of(alloc: Global, line: &[u8], bad: Fault) -> Result<Reply, Fault> {
    let Ok(text) = std::str::from_utf8(line) else {
        return Err(bad);
    };
    let mut words = Word { text, alloc, bad }.parts(' ');
    let reply = message_of(&mut words)?;
    words.end()?;
    Ok(reply)
}

// The message that the name and the fields at the front of a line spell.
fn message_of(words: &mut Parts<'_>) -> Result<Reply, Fault> {
    let name = words.part()?;
    match without_fields(name.text) {
        Some(message) => Ok(Reply::NoBody(message)),
        None => with_fields(name, words),
    }
}

// A message without fields, by its name.
fn without_fields(name: &str) -> Option<OutboundNoBody> {
    match name {
        "bindcomplete" => Some(OutboundNoBody::BindComplete),
        "closecomplete" => Some(OutboundNoBody::CloseComplete),
        "copydone" => Some(OutboundNoBody::CopyDone),
        "emptyqueryresponse" => Some(OutboundNoBody::EmptyQueryResponse),
        "nodata" => Some(OutboundNoBody::NoData),
        "parsecomplete" => Some(OutboundNoBody::ParseComplete),
        "portalsuspended" => Some(OutboundNoBody::PortalSuspended),
        _ => None,
    }
}

// A message with fields, by its name and its other words.
fn with_fields(name: Word<'_>, words: &mut Parts<'_>) -> Result<Reply, Fault> {
    match name.text {
        "commandcomplete" => Ok(Reply::CommandComplete(words.read()?)),
        "datarow" => Ok(Reply::DataRow(words.list()?)),
        "functioncallresponse" => Ok(Reply::FunctionCallResponse(words.read()?)),
        "notification" => notification_of(words),
        "parameterdescription" => Ok(Reply::ParameterDescription(words.list()?)),
        "parameterstatus" => setting_of(words),
        "rowdescription" => Ok(Reply::RowDescription(words.list()?)),
        _ => step_of(name, words),
    }
}

// A step of the session or of a COPY, or what went wrong.
fn step_of(name: Word<'_>, words: &mut Parts<'_>) -> Result<Reply, Fault> {
    match name.text {
        "authentication" => Ok(Reply::Authentication(request_of(words)?)),
        "backendkeydata" => key_data_of(words),
        "copydata" => Ok(Reply::CopyData(words.read()?)),
        "copyin" => copy_of(CopyDirection::In, words),
        "copyout" => copy_of(CopyDirection::Out, words),
        "copyboth" => copy_of(CopyDirection::Both, words),
        "errorresponse" => notice_of(NoticeKind::Error, words),
        "negotiate" => negotiation_of(words),
        "noticeresponse" => notice_of(NoticeKind::Notice, words),
        "ready" => ready_of(words),
        _ => Err(name.bad),
    }
}

fn request_of(words: &mut Parts<'_>) -> Result<AuthenticationRequest, Fault> {
    let method = words.part()?;
    match method.text {
        "ok" => Ok(AuthenticationRequest::Ok),
        "cleartext" => Ok(AuthenticationRequest::CleartextPassword),
        "md5" => Ok(AuthenticationRequest::Md5Password(words.read()?)),
        "sasl" => Ok(AuthenticationRequest::Sasl(words.list()?)),
        "continue" => Ok(AuthenticationRequest::SaslContinue(words.read()?)),
        "final" => Ok(AuthenticationRequest::SaslFinal(words.read()?)),
        _ => Err(method.bad),
    }
}

// `PROCESS HEX`
fn key_data_of(words: &mut Parts<'_>) -> Result<Reply, Fault> {
    Ok(Reply::BackendKeyData(KeyData {
        process_id: words.read()?,
        secret_key: words.read()?,
    }))
}

// `MINOR NAMES`
fn negotiation_of(words: &mut Parts<'_>) -> Result<Reply, Fault> {
    Ok(Reply::NegotiateProtocolVersion(Negotiation {
        minor: words.read()?,
        options: words.list()?,
    }))
}

// `PROCESS HEX HEX`
fn notification_of(words: &mut Parts<'_>) -> Result<Reply, Fault> {
    Ok(Reply::Notification(OwnedNotification {
        process_id: words.read()?,
        channel: words.read()?,
        payload: words.read()?,
    }))
}

// `HEX HEX`
fn setting_of(words: &mut Parts<'_>) -> Result<Reply, Fault> {
    Ok(Reply::ParameterStatus(OwnedSetting {
        name: words.read()?,
        value: words.read()?,
    }))
}

// `FORMAT CODES`
fn copy_of(direction: CopyDirection, words: &mut Parts<'_>) -> Result<Reply, Fault> {
    Ok(Reply::CopyResponse(CopyResponse {
        direction,
        format: words.read()?,
        format_codes: words.list()?,
    }))
}

// `FIELDS`
fn notice_of(kind: NoticeKind, words: &mut Parts<'_>) -> Result<Reply, Fault> {
    let fields = words.list()?;
    Ok(Reply::Notice(OwnedNotice { kind, fields }))
}

// `STATUS`
fn ready_of(words: &mut Parts<'_>) -> Result<Reply, Fault> {
    let status = words.part()?;
    match status.text {
        "I" => Ok(Reply::ReadyForQuery(OutboundReadyForQuery::Idle)),
        "T" => Ok(Reply::ReadyForQuery(OutboundReadyForQuery::Transaction)),
        "E" => Ok(Reply::ReadyForQuery(OutboundReadyForQuery::Error)),
        _ => Err(status.bad),
    }
}

// `LETTER=HEX`
impl FromWord for OwnedField {
    fn of(word: Word<'_>) -> Result<OwnedField, Fault> {
        let mut parts = word.parts('=');
        let letter = letter_of(parts.part()?)?;
        let text = parts.read()?;
        parts.end()?;
        Ok(OwnedField { letter, text })
    }
}

// A letter of one byte, or its two hexadecimal digits.
fn letter_of(word: Word<'_>) -> Result<u8, Fault> {
    if let [letter] = word.text.as_bytes() {
        return Ok(*letter);
    }
    let letter = hex_array::<1>(word.text).ok_or(word.bad)?;
    Ok(letter[0])
}

// `NAME:TABLE:ATTRIBUTE:TYPE:SIZE:MODIFIER:FORMAT`
impl FromWord for OwnedColumn {
    fn of(word: Word<'_>) -> Result<OwnedColumn, Fault> {
        let mut parts = word.parts(':');
        let column = OwnedColumn {
            name: parts.read()?,
            table: parts.read()?,
            attribute: parts.read()?,
            data_type: parts.read()?,
            size: parts.read()?,
            modifier: parts.read()?,
            format: parts.read()?,
        };
        parts.end()?;
        Ok(column)
    }
}
