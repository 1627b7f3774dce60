//! The ground of the PostgreSQL message layer: what can be wrong, tags, ids, numbers and the
//! length prefix, which both directions share.
#![tactic(auto)]

mod error;
mod format;
pub mod io;
pub mod laws;

pub use error::{Error, ErrorKind, ProtocolFault};
pub use format::{BackendMessageFormat, FrontendMessageFormat};
