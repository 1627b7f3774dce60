//! Rows of text, loaded into a table by one COPY, without a socket.
//!
//! Start a [`Load`], send what it adds to the output, and hand it what the server sends until it
//! gives the number of rows.

mod error;
mod load;

pub use error::LoadError;
pub use load::{Load, encode_rows};
