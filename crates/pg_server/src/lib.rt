//! The other side of the protocol, for servers, proxies, poolers and recorders: the messages that a client
//! sends, read from their bytes, in [`frontend`]; those that a server sends, each as bytes, in [`backend`].
#![tactic(auto)]

pub mod backend;
pub mod frontend;
