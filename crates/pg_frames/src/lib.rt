//! The messages of a stream, however its bytes come in: of a server's stream here, of a client's in
//! [`frontend`]; and the core of a proxy between the two in [`relay`].
#![tactic(auto)]

mod block;
mod frame;
pub mod frontend;
mod head;
pub mod laws;
mod pieces;
mod protocol_frame;
mod raw_frame;
mod reader;
pub mod relay;

pub use frame::{Frame, next_frame};
pub use head::{FrameHead, first_length};
pub use pieces::{StreamEnd, read_pieces};
pub use protocol_frame::{ProtocolFrame, next_protocol_frame};
pub use raw_frame::{RawFrame, next_raw_frame};
pub use reader::FrameReader;
