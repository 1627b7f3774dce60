//! The messages of a stream from a PostgreSQL client, however its bytes come in.

mod error;
mod frame;
pub mod laws;
mod message;
mod pieces;
mod reader;

pub use error::FrontendError;
pub use frame::{Expects, FrontendFrame, MAX_FIRST_LENGTH, after_first, next_frontend_frame};
pub use message::{ClientMessage, ClientMessageKind, ClientMessageRef};
pub use pieces::{ClientStreamEnd, read_client_pieces};
pub use reader::FrontendFrameReader;
