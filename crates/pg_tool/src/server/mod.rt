//! A server's side: messages from a client are read, and messages to one are written.

mod decode;
mod encode;
mod frame;
mod message;
mod reply;
mod reply_line;
mod spelling;
mod stream;
mod word;

pub use decode::decode;
pub use encode::encode;
