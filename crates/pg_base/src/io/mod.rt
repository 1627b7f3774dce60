//! Ids and their names, formats, and what a message is written to and read from.

mod atoi;
mod buf_mut;
mod copy;
mod copy_bytes;
mod decimal;
mod decode;
mod encode;
mod id;
mod name;
mod numbers;
pub mod part;
mod sink;
mod tagged;

pub use atoi::{atoi_u32, atoi_u64, atoi_usize};
pub use buf_mut::PgBufMutExt;
pub use copy::{CopyData, CopyDone, LendBytes};
pub use decode::ProtocolDecode;
pub use encode::ProtocolEncode;
pub use id::{DisplayId, PortalId, StatementId};
pub use name::{Ended, Name};
pub use numbers::{bytes_at, i8_at, i16_at, i32_at, i64_at, u8_at, u16_at, u32_at, u64_at};
pub use sink::{Cursor, Encodable, Sink, write_text};
pub use tagged::{HEADER, Tagged, checked_len};

/// The greatest length that a message's length field can say, in bytes: it is a signed number of
/// four bytes. Documentation: "Message Data Types".
pub const MAX_LENGTH: usize = i32::MAX as usize;

/// The greatest length of a body, in bytes: the length field counts its own four bytes too.
pub const MAX_BODY: usize = MAX_LENGTH - 4;

/// The number of a type or of a table in the server's catalog.
#[derive(Clone, Copy, Debug, Default, PartialEq, Eq)]
pub struct Oid(pub u32);

/// How a value is spelled. As a number it is the format code of a message. Documentation: "Formats
/// and Format Codes".
#[derive(Clone, Copy, Debug, PartialEq, Eq)]
pub enum PgValueFormat {
    Text = 0,
    Binary = 1,
}
