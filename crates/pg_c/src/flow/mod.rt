//! Which message may come when, and which request it answers, for either side of a session.

mod refusal;
pub mod session;
