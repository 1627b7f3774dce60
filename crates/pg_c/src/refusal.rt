//! Why a call refuses, as a number and in words.

ghost use Rattle.std.specs.Prelude.{◌≡◌, ◌<ℤ◌, pos};
ghost use Rattle.pg_c.specs.Refusal.{fault_number, refusal_number, fault_place, IsReport, IsReportWith};
ghost use Rattle.pg_c.specs.Refusal.{client_number, client_place, IsClientReport};

use pg_base::{Error, ProtocolFault};
use pg_server::frontend::FrontendFault;
use std::alloc::{AllocError, Global};

/// No memory was there. No call of this library returns it.
pub const OUT_OF_MEMORY: i32 = -1;

/// More parameter formats than a message can count.
pub const TOO_MANY_PARAM_FORMATS: i32 = -2;

/// More result formats than a message can count.
pub const TOO_MANY_RESULT_FORMATS: i32 = -3;

/// More parameter types than a message can count.
pub const TOO_MANY_PARAM_TYPES: i32 = -4;

/// A message is longer than its length field can say.
pub const MESSAGE_TOO_LONG: i32 = -5;

/// A message was read as one of another kind. No call of this library returns it.
pub const WRONG_FORMAT: i32 = -6;

/// A received body is longer than a length field can say.
pub const BODY_TOO_LONG: i32 = -7;

/// No message that is known here, from a server or from a client, has this tag, or no message of
/// replication has this letter.
pub const UNKNOWN_MESSAGE_TYPE: i32 = -8;

/// A method of authentication that isn't known here.
pub const UNKNOWN_AUTHENTICATION: i32 = -9;

/// No transaction status has this letter.
pub const UNKNOWN_STATUS: i32 = -10;

/// No severity has this word.
pub const UNKNOWN_SEVERITY: i32 = -11;

/// A body has fewer bytes than are needed.
pub const SHORT: i32 = -12;

/// A text has no end.
pub const MISSING_NUL: i32 = -13;

/// A text is not UTF-8.
pub const NOT_UTF8: i32 = -14;

/// A text of an error or a notice is not UTF-8.
pub const NOTICE_NOT_UTF8: i32 = -15;

/// An item of SASL data has no room for a key and its separator.
pub const SHORT_SASL_ITEM: i32 = -16;

/// A value of SASL data is not base64.
pub const BASE64: i32 = -17;

/// The length of a message is below 4, or that of a client's first message below 8.
pub const BAD_LENGTH: i32 = -18;

/// A text to be sent holds a NUL, or would end its list: the name of a setting or of a mechanism is
/// empty, or the letter of a field is 0.
pub const TEXT_HOLDS_NUL: i32 = -19;

/// More values of a Bind, or arguments of a FunctionCall, than a message can count.
pub const BAD_PARAMS: i32 = -20;

/// A session's secret key has fewer than 4 or more than 256 bytes.
pub const BAD_KEY_LENGTH: i32 = -21;

/// No first message has this code.
pub const UNKNOWN_CODE: i32 = -22;

/// A Describe or a Close names neither a statement nor a portal.
pub const UNKNOWN_TARGET: i32 = -23;

/// A value has a length below -1.
pub const BAD_VALUE_LENGTH: i32 = -24;

/// Bytes follow the end of a message.
pub const TRAILING_BYTES: i32 = -25;

/// A first message is longer than the caller takes.
pub const FIRST_TOO_LONG: i32 = -26;

/// More items than a message to a client can count.
pub const TOO_MANY: i32 = -27;

/// What is to be added to a stream is no run of whole messages.
pub const NOT_FRAMES: i32 = -28;

/// A message that is wanted whole is longer than the caller takes.
pub const FRAME_TOO_LONG: i32 = -29;

/// No row and no value of logical replication has this letter.
pub const UNKNOWN_LETTER: i32 = -30;

/// The login isn't over, and doesn't wait for this message.
pub const NOT_READY: i32 = -31;

/// The client has said that it ends the session, or the server has.
pub const AFTER_END: i32 = -32;

/// The data of a COPY are to be given or refused first.
pub const IN_COPY: i32 = -33;

/// No COPY takes data.
pub const NOT_IN_COPY: i32 = -34;

/// Data of a COPY go both ways: those of the client are ended by CopyDone, and can't be refused.
pub const NOT_REFUSABLE: i32 = -35;

/// No request waits for an answer.
pub const UNASKED: i32 = -36;

/// A server is done with no request before this one.
pub const BUSY: i32 = -37;

/// A message doesn't answer the request that waits.
pub const NOT_AN_ANSWER: i32 = -38;

/// A COPY asks for data, and other requests were said behind it.
pub const BEHIND_COPY: i32 = -39;

/// It can't be known whether the server passes over a request: a Sync is to be said first.
pub const SYNC_FIRST: i32 = -40;

/// No more requests may wait, or no memory was there for those that do.
pub const FLOW_FULL: i32 = -41;

/// What is wrong with bytes that were read. `number` is what the call returned. `at` is an offset
/// in them, where the fault has one, else 0. `words` are `words_len` bytes of ASCII, none where
/// there was no memory for them.
#[repr(C)]
pub struct PgmsgFault {
    pub number: i32,
    pub at: usize,
    pub words_len: usize,
    pub words: [u8; 256],
}

/// The number of an error.
pub fn number_of(error: Error) -> i32
    ensures { result ≡ refusal_number error }
{
    match error {
        Error::OutOfMemory => OUT_OF_MEMORY,
        Error::Protocol { fault, .. } => number_of_fault(fault),
    }
}

/// The number of a fault.
pub fn number_of_fault(fault: ProtocolFault) -> i32
    ensures number { result ≡ fault_number fault }
    ensures below { result <ℤ pos 0 }
{
    match fault {
        ProtocolFault::TooManyParamFormats(_) => TOO_MANY_PARAM_FORMATS,
        ProtocolFault::TooManyResultFormats(_) => TOO_MANY_RESULT_FORMATS,
        ProtocolFault::TooManyParamTypes(_) => TOO_MANY_PARAM_TYPES,
        ProtocolFault::TooMany(_) => TOO_MANY,
        ProtocolFault::MessageTooLong(_) => MESSAGE_TOO_LONG,
        ProtocolFault::WrongFormat { .. } => WRONG_FORMAT,
        ProtocolFault::BodyTooLong(_) => BODY_TOO_LONG,
        ProtocolFault::UnknownMessageType(_) => UNKNOWN_MESSAGE_TYPE,
        ProtocolFault::UnknownLetter(_) => UNKNOWN_LETTER,
        ProtocolFault::UnknownAuthentication(_) => UNKNOWN_AUTHENTICATION,
        ProtocolFault::UnknownStatus(_) => UNKNOWN_STATUS,
        ProtocolFault::UnknownSeverity => UNKNOWN_SEVERITY,
        ProtocolFault::Short { .. } => SHORT,
        ProtocolFault::MissingNul { .. } => MISSING_NUL,
        ProtocolFault::NotUtf8 => NOT_UTF8,
        ProtocolFault::NoticeNotUtf8 => NOTICE_NOT_UTF8,
        ProtocolFault::ShortSaslItem => SHORT_SASL_ITEM,
        ProtocolFault::Base64 => BASE64,
        ProtocolFault::BadLength(_) => BAD_LENGTH,
        ProtocolFault::TextHoldsNul => TEXT_HOLDS_NUL,
        ProtocolFault::BadParams => BAD_PARAMS,
        ProtocolFault::BadKeyLength(_) => BAD_KEY_LENGTH,
        ProtocolFault::UnknownCode(_) => UNKNOWN_CODE,
        ProtocolFault::ValueLength { .. } => BAD_VALUE_LENGTH,
        ProtocolFault::TrailingBytes { .. } => TRAILING_BYTES,
    }
}

// The offset that an error names, 0 where it names none.
fn offset_of(error: Error) -> usize
    ensures { result ≡ fault_place error }
{
    match error {
        Error::Protocol {
            fault: ProtocolFault::Short { at, .. }
            | ProtocolFault::MissingNul { at }
            | ProtocolFault::ValueLength { at, .. }
            | ProtocolFault::TrailingBytes { at },
            ..
        } => at,
        _ => 0,
    }
}

/// Fills the fault with an error, and gives its number.
pub fn report(alloc: Global, error: Error, fault: &mut PgmsgFault) -> i32
    ensures report { IsReport error fault.old fault.new result }
    ensures below { result <ℤ pos 0 }
{
    let words = error.to_string(alloc);
    fill(number_of(error), offset_of(error), &words, fault)
}

// The number of what is wrong with a message from a client.
fn number_of_client(fault: FrontendFault) -> i32
    ensures { result ≡ client_number fault }
{
    match fault {
        FrontendFault::UnknownTag(_) => UNKNOWN_MESSAGE_TYPE,
        FrontendFault::UnknownCode(_) => UNKNOWN_CODE,
        FrontendFault::UnknownTarget(_) => UNKNOWN_TARGET,
        FrontendFault::Short { .. } => SHORT,
        FrontendFault::MissingNul { .. } => MISSING_NUL,
        FrontendFault::ValueLength { .. } => BAD_VALUE_LENGTH,
        FrontendFault::KeyLength(_) => BAD_KEY_LENGTH,
        FrontendFault::TrailingBytes { .. } => TRAILING_BYTES,
        FrontendFault::BadLength(_) => BAD_LENGTH,
        FrontendFault::FirstTooLong { .. } => FIRST_TOO_LONG,
    }
}

// The offset that it names, 0 where it names none.
fn offset_of_client(fault: FrontendFault) -> usize
    ensures { result ≡ client_place fault }
{
    match fault {
        FrontendFault::Short { at, .. }
        | FrontendFault::MissingNul { at }
        | FrontendFault::ValueLength { at, .. }
        | FrontendFault::TrailingBytes { at } => at,
        _ => 0,
    }
}

/// Fills the fault with what is wrong with a message from a client, and gives its number.
pub fn report_client(alloc: Global, why: FrontendFault, fault: &mut PgmsgFault) -> i32
    ensures report { IsClientReport why fault.old fault.new result }
    ensures below { result <ℤ pos 0 }
{
    let words = why.to_string(alloc);
    fill(number_of_client(why), offset_of_client(why), &words, fault)
}

/// Fills the fault, with words where there are some and it has room for them, and gives the number.
pub(crate) fn fill(
    number: i32,
    at: usize,
    words: &Result<String, AllocError>,
    fault: &mut PgmsgFault,
) -> i32
    ensures { IsReportWith number at words.now fault.old fault.new result }
{
    fault.number = number;
    fault.at = at;
    fault.words_len = 0;
    if let Ok(words) = words {
        if words.len() <= fault.words.len() {
            fault.words[..words.len()].copy_from_slice(words.as_bytes());
            fault.words_len = words.len();
        }
    }
    number
}
