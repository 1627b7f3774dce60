//! What can be wrong with a message, and the words for it.

ghost use Rattle.std.specs.Prelude.{◌≡◌, Some, None};
ghost use Rattle.pg_base.specs.declared.error.Error.TheVariants.{Protocol, OutOfMemory};
ghost use Rattle.pg_base.specs.Error.{fault_words, error_words};

use crate::format::BackendMessageFormat;
use std::alloc::{AllocError, AllocFailed};
use std::fmt;

/// Why a message is refused. Offsets and lengths are in bytes; an offset counts from the start of
/// the body.
#[derive(Clone, Copy, Debug, PartialEq, Eq)]
pub enum ProtocolFault {
    /// More parameter format codes than a message can count: how many there are.
    TooManyParamFormats(usize),
    /// More result format codes than a message can count: how many there are.
    TooManyResultFormats(usize),
    /// More parameter types than a message can count: how many there are.
    TooManyParamTypes(usize),
    /// More items than a message to a client can count: how many there are.
    TooMany(usize),
    /// The length of the message, which counts itself and the body, doesn't fit its field; or that
    /// of a value of a Bind with the four bytes before it. It saturates at the greatest `usize`.
    MessageTooLong(usize),
    /// A message was read as one of another kind.
    WrongFormat {
        /// The kind that it was read as.
        expected: BackendMessageFormat,
        /// The kind that it is.
        got: BackendMessageFormat,
    },
    /// A received body is longer than a length field can say: its length.
    BodyTooLong(usize),
    /// No message that this layer knows has this tag, or no message of replication has this letter.
    UnknownMessageType(u8),
    /// No part of a message has this letter where one is chosen by its letter: a row or a value of logical
    /// replication, or what a Describe or a Close names.
    UnknownLetter(u8),
    /// A method of authentication that this layer doesn't speak.
    UnknownAuthentication(u32),
    /// No transaction status has this letter.
    UnknownStatus(u8),
    /// No severity has this word.
    UnknownSeverity,
    /// Fewer bytes than are needed at an offset.
    Short {
        /// Where the bytes are wanted.
        at: usize,
        /// How many are wanted.
        needed: usize,
        /// How many there are from there to the end.
        got: usize,
    },
    /// The text that begins at this offset has no end.
    MissingNul {
        at: usize,
    },
    /// A text of a message is not UTF-8.
    NotUtf8,
    /// A text of a notice or an error is not UTF-8.
    NoticeNotUtf8,
    /// An item of SASL data has no room for a key and its separator.
    ShortSaslItem,
    /// A value of SASL data is not base64.
    Base64,
    /// The length of a received frame doesn't even count itself: below 4.
    BadLength(i32),
    /// A text that the protocol ends with a NUL holds one; or what would end its list stands in it: a
    /// setting or a mechanism of authentication without a name, or a field of a notice with the letter 0.
    TextHoldsNul,
    /// The parameters of a Bind are not as many values as it says, or a Bind has more values, or a FunctionCall
    /// more arguments, than a message can count.
    BadParams,
    /// The secret key of a session has fewer than 4 bytes, or more than 256: its length.
    BadKeyLength(usize),
    /// No first message of a client has this code, and it is no version 3 of the protocol.
    UnknownCode(u32),
    /// A value of a client's message has a length below -1, which says NULL.
    ValueLength {
        /// Where the length is.
        at: usize,
        /// The length.
        length: i32,
    },
    /// Bytes follow the last part of a message that ends with it, from this offset on.
    TrailingBytes {
        at: usize,
    },
}

impl fmt::Display for ProtocolFault {
    ghost output = { λ fault. Some (fault_words fault) };

    fn fmt<W: fmt::Write>(&self, f: &mut fmt::Formatter<W>) -> fmt::Result {
        match *self {
            ProtocolFault::TooManyParamFormats(count) => {
                write!(f, "too many parameter format codes ({count})")
            }
            ProtocolFault::TooManyResultFormats(count) => {
                write!(f, "too many result format codes ({count})")
            }
            ProtocolFault::TooManyParamTypes(count) => {
                write!(
                    f,
                    "param_types.len() too large for binary protocol: {count}"
                )
            }
            ProtocolFault::TooMany(count) => write!(f, "too many items for a message: {count}"),
            ProtocolFault::MessageTooLong(length) => {
                write!(f, "message size out of range for protocol: {length}")
            }
            ProtocolFault::WrongFormat { expected, got } => {
                let expected = expected.name();
                let got = got.name();
                write!(f, "Postgres protocol error: expected {expected}, got {got}")
            }
            ProtocolFault::BodyTooLong(length) => {
                write!(f, "message body out of range for protocol: {length}")
            }
            ProtocolFault::UnknownMessageType(tag) => write!(f, "unknown message type: {tag}"),
            ProtocolFault::UnknownLetter(letter) => write!(f, "unknown letter: {letter}"),
            ProtocolFault::UnknownAuthentication(method) => {
                write!(f, "unknown authentication method: {method}")
            }
            ProtocolFault::UnknownStatus(status) => {
                write!(f, "unknown transaction status: {status}")
            }
            ProtocolFault::UnknownSeverity => write!(f, "unknown severity"),
            ProtocolFault::Short { at, needed, got } => {
                write!(f, "expected {needed} bytes at offset {at}, got {got}")
            }
            ProtocolFault::MissingNul { at } => write!(f, "expected NUL after offset {at}"),
            ProtocolFault::NotUtf8 => write!(f, "text is not UTF-8"),
            ProtocolFault::NoticeNotUtf8 => write!(
                f,
                "Postgres returned a non-UTF-8 string for its error message. This is most likely due to an error that occurred during authentication and the default lc_messages locale is not binary-compatible with UTF-8. See the server logs for the error details."
            ),
            ProtocolFault::ShortSaslItem => write!(f, "SASL item of fewer than two bytes"),
            ProtocolFault::Base64 => write!(f, "SASL value is not base64"),
            ProtocolFault::BadLength(length) => write!(f, "bad message length: {length}"),
            ProtocolFault::TextHoldsNul => write!(f, "text holds NUL"),
            ProtocolFault::BadParams => write!(f, "params are not num_params values"),
            ProtocolFault::BadKeyLength(length) => {
                write!(f, "secret key length out of range for protocol: {length}")
            }
            ProtocolFault::UnknownCode(code) => write!(f, "unknown code: {code}"),
            ProtocolFault::ValueLength { at, length } => {
                write!(f, "bad value length at offset {at}: {length}")
            }
            ProtocolFault::TrailingBytes { at } => {
                write!(f, "expected the end of the message at offset {at}")
            }
        }
    }
}

impl std::error::Error for ProtocolFault {}

/// The constraint that a statement violated, by the code of the error.
#[derive(Clone, Copy, Debug, PartialEq, Eq)]
pub enum ErrorKind {
    /// A unique or primary key.
    UniqueViolation,
    /// A foreign key.
    ForeignKeyViolation,
    /// A column that takes no null.
    NotNullViolation,
    /// A check constraint.
    CheckViolation,
    /// An exclusion constraint.
    ExclusionViolation,
    /// Any other error.
    Other,
}

/// Why a call of this layer gave no answer.
#[derive(Clone, Copy, Debug, PartialEq, Eq)]
pub enum Error {
    /// The message is refused.
    Protocol {
        /// The kind of message that was decoded, where the call knew it.
        reading: Option<BackendMessageFormat>,
        /// What is wrong.
        fault: ProtocolFault,
    },
    /// A growth of a buffer, or a cut that shares one, found no memory.
    OutOfMemory,
}

impl fmt::Display for Error {
    ghost output = { λ error. Some (error_words error) };

    fn fmt<W: fmt::Write>(&self, f: &mut fmt::Formatter<W>) -> fmt::Result {
        match *self {
            Error::Protocol {
                reading: None,
                fault,
            } => write!(f, "{fault}"),
            Error::Protocol {
                reading: Some(format),
                fault,
            } => {
                let name = format.name();
                write!(f, "Postgres protocol error (reading {name}): {fault}")
            }
            Error::OutOfMemory => write!(f, "out of memory"),
        }
    }
}

impl std::error::Error for Error {}

impl From<ProtocolFault> for Error {
    ghost from_gives = { λ fault error. error ≡ Protocol None fault };

    fn from(fault: ProtocolFault) -> Error {
        Error::Protocol {
            reading: None,
            fault,
        }
    }
}

impl From<AllocError> for Error {
    ghost from_gives = { λ _ error. error ≡ OutOfMemory };

    fn from(_error: AllocError) -> Error {
        Error::OutOfMemory
    }
}

impl<T: Drop> From<AllocFailed<T>> for Error {
    ghost from_gives = { λ _ error. error ≡ OutOfMemory };

    fn from(_failed: AllocFailed<T>) -> Error {
        Error::OutOfMemory
    }
}
