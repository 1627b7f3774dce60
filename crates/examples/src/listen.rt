//! A session that listens to channels, without a socket.
//!
//! Open a [`Session`], send what [`Session::take_output`] gives, feed it what the server sends, and
//! answer each [`Event`] by [`Session::send`].

mod error;
mod event;
mod session;

pub use error::SessionError;
pub use event::Event;
pub use session::Session;
