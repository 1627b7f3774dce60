//! What the bytes of messages mean: formats for reading and for writing, the page of all messages, and
//! the laws of both, which the crates of messages cite in their contracts; the texts and the lists within a
//! body; and what a message from a server is (`BackendMessage`), whose decoding answers what its format means.
#![tactic(auto)]

mod ascii;
mod copy;
pub mod field;
pub mod items;
pub mod laws;
mod logical;
mod nul;
mod protocol;
mod received;
mod replication;
pub mod text;
pub mod value;

pub use logical::LogicalKind;
pub use protocol::ProtocolMessageKind;
pub use received::{BackendMessage, ReceivedMessage};
pub use replication::ReplicationKind;
