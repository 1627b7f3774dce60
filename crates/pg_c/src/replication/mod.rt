//! What the data of a CopyData says while a server streams its log or a backup, and what a piece of a logical slot's
//! log says.
//!
//! Each message begins with a letter, which says its kind, and one struct has what all of the kinds have.

pub mod logical;
pub mod put;
pub mod read;
