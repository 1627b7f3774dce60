//! The parts of a body, each by its offset and with the offset after it, for who reads a message part by
//! part. A fault names the offset of what can't be read.

pub use crate::frontend::format_codes::codes_at;
pub use crate::frontend::offsets::{bytes_at, end_at, i32_at, text_at, u16_at, u32_at};
pub use crate::frontend::parameter_types::types_at;
pub use crate::frontend::values::{value_at, values_at};
