//! Small programs' cores over `pg_message` alone, without a socket: what the guide shows.
#![tactic(auto)]

pub mod copy_load;
pub mod listen;
pub mod record;
