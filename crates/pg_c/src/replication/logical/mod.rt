//! What a server streams of the changes of its tables, as its plugin pgoutput writes it.
//!
//! A message is read whole, with the values of its new row. Its old row, columns and tables are then read of it by calls of
//! their own.

mod change;
pub mod lists;
mod new_row;
pub mod put;
pub mod read;
mod transaction;
