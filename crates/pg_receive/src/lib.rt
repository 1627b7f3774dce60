//! The messages that a PostgreSQL server sends, read from their bytes.
#![tactic(auto)]

pub mod database_error;
pub mod laws;
pub mod message;
