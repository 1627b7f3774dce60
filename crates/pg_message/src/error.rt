//! What can be wrong: a fault of the protocol or of a client's message, out of memory, and errors that a
//! server reports.

pub use pg_base::{Error, ErrorKind, ProtocolFault};
pub use pg_frames::frontend::FrontendError;
pub use pg_receive::database_error::{PgDatabaseError, PgErrorPosition, error_codes};
pub use pg_receive::message::PgSeverity;
pub use pg_server::frontend::FrontendFault;
