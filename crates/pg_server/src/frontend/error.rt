//! What can be wrong with a message from a client, and the words for it.

ghost use Rattle.std.specs.Prelude.{Some};
ghost use Rattle.pg_server.specs.Frontend.Error.{fault_words};

use pg_base::ProtocolFault::{
    BadLength, MissingNul, Short, TrailingBytes, UnknownCode, UnknownMessageType, ValueLength,
};
use std::fmt::{self, Display};

/// Why a message from a client is refused. Offsets and lengths are in bytes; an offset counts from the start of
/// the body.
#[derive(Clone, Copy, Debug, PartialEq, Eq)]
pub enum FrontendFault {
    /// No message from a client has this tag.
    UnknownTag(u8),
    /// No first message has this code, and it is no version 3 of the protocol.
    UnknownCode(u32),
    /// A Describe or a Close names neither a statement, by `S`, nor a portal, by `P`, but has this letter.
    UnknownTarget(u8),
    /// Fewer bytes than are needed at an offset.
    Short {
        /// Where the bytes are wanted.
        at: usize,
        /// How many are wanted.
        needed: usize,
        /// How many there are from there to the end.
        got: usize,
    },
    /// The text that begins at this offset has no end.
    MissingNul {
        at: usize,
    },
    /// A value has a length below -1, which says NULL.
    ValueLength {
        /// Where the length is.
        at: usize,
        /// The length.
        length: i32,
    },
    /// The secret key of a session has fewer than 4 bytes, or more than 256: its length.
    KeyLength(usize),
    /// Bytes follow the end of the message, from this offset on.
    TrailingBytes {
        at: usize,
    },
    /// The length of a message on the stream is below 4, by which it counts itself; or, of a first message,
    /// below 8, by which it counts the code too.
    BadLength(i32),
    /// A first message is longer than its reader takes.
    FirstTooLong {
        /// Its length, which counts itself.
        length: usize,
        /// The greatest that is taken.
        limit: usize,
    },
}

impl Display for FrontendFault {
    ghost output = { λ fault. Some (fault_words fault) };

    fn fmt<W: fmt::Write>(&self, f: &mut fmt::Formatter<W>) -> fmt::Result {
        match *self {
            FrontendFault::UnknownTag(tag) => Display::fmt(&UnknownMessageType(tag), f),
            FrontendFault::UnknownCode(code) => Display::fmt(&UnknownCode(code), f),
            FrontendFault::UnknownTarget(letter) => {
                write!(f, "neither a statement nor a portal: {letter}")
            }
            FrontendFault::Short { at, needed, got } => Display::fmt(&Short { at, needed, got }, f),
            FrontendFault::MissingNul { at } => Display::fmt(&MissingNul { at }, f),
            FrontendFault::ValueLength { at, length } => {
                Display::fmt(&ValueLength { at, length }, f)
            }
            FrontendFault::KeyLength(length) => write!(f, "bad secret key length: {length}"),
            FrontendFault::TrailingBytes { at } => Display::fmt(&TrailingBytes { at }, f),
            FrontendFault::BadLength(length) => Display::fmt(&BadLength(length), f),
            FrontendFault::FirstTooLong { length, limit } => {
                write!(
                    f,
                    "expected a first message of at most {limit} bytes, got {length}"
                )
            }
        }
    }
}

impl std::error::Error for FrontendFault {}
