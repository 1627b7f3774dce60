//! What holds beyond single calls: each function's contract is a law. [`backend`] and [`frontend`] have
//! those of writers and readers together, of each direction; the others are those of the crates below.

pub mod backend;
pub mod frontend;

pub use pg_base::laws as base;
pub use pg_format::laws as formats;
pub use pg_frames::frontend::laws as frontend_frames;
pub use pg_frames::laws as frames;
pub use pg_frames::relay::laws as relay;
pub use pg_receive::laws as receive;
pub use pg_receive::laws::response;
pub use pg_send::laws as request;
pub use pg_server::backend::laws as write_backend;
pub use pg_server::frontend::laws as read_frontend;
