//! Ids and their names, formats of values, limits, the parts of a body, and what a message is written to
//! and read from.

pub use bytes::Bytes;
pub use pg_base::io::{
    Cursor, DisplayId, Encodable, Ended, HEADER, LendBytes, MAX_BODY, MAX_LENGTH, Name, Oid,
    PgBufMutExt, PgValueFormat, PortalId, ProtocolDecode, ProtocolEncode, Sink, StatementId,
    Tagged, atoi_u32, atoi_u64, atoi_usize, bytes_at, checked_len, i8_at, i16_at, i32_at, i64_at,
    part, u8_at, u16_at, u32_at, u64_at, write_text,
};
pub use pg_format::items;
pub use pg_receive::message::{
    body_end, check_exact, leading_u32, leading_u64, leading_usize, split_raw_name, split_text,
    str_at, text_at, utf8_text,
};
pub use smallvec::SmallVec;
