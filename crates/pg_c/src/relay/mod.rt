//! A stream that is passed on, for proxies and poolers: where its messages lie, and whether what is to be added to it
//! is whole messages.
//!
//! The caller keeps the bytes until they go out. Only a refusal fills `fault`.

pub mod passage;
mod refusal;
pub mod run;
mod state;
