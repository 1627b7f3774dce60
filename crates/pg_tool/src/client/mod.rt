//! A client's side: messages to a server are written, and messages from one are read.

mod command;
mod decode;
mod encode;
mod stream;
mod word;

pub use decode::decode;
pub use encode::encode;
