//! The messages as functions for C, and for languages that call C.
//!
//! Nothing is kept after a call and no memory changes hands: a message is written into the caller's
//! bytes, and what is read is given as places in the bytes that were passed. `packaging/header` makes
//! the C header of the functions that are marked as exported, and `packaging/exports.py` exports them.
#![tactic(auto)]

pub mod client;
pub mod flow;
pub mod place;
pub mod put;
pub mod read;
pub mod refusal;
pub mod relay;
pub mod replication;
pub mod server;
