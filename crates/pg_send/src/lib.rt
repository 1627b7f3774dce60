//! The messages that a client sends to a PostgreSQL server, each as bytes, any of them as one value, and
//! runs of them into one buffer.
#![tactic(auto)]

pub mod laws;
pub mod message;
