//! Which message may come when, and which request it answers: a session from its first message on, as its client or its
//! server follows it. Documentation: "Message Flow".
//!
//! A [`Flow`] takes the messages of both sides, each by its tag and the first bytes of its body, and neither reads nor writes
//! anything. It numbers the requests, and says of each answer whose it is. A message that can't come now is a [`Fault`], and
//! changes nothing. A [`FixedFlow`] is the same in a struct of fixed size, for C.
//!
//! # What is taken beside the documentation
//!
//! PostgreSQL 15 and poolers say or take it, and it does no harm:
//!
//! - data of a COPY and their end where nothing that waits may take them, as after an error that crossed them
//! - a description with its rows again before the CommandComplete of a Query, as rules make them, and an error between a
//!   CommandComplete and ReadyForQuery
//! - ReadyForQuery right behind an error of a COPY in both directions: PostgreSQL waits for no Sync there
//! - a Sync before the end of a COPY's data in the extended protocol. A server drops it while it reads data, and answers it
//!   where the COPY has failed; so the Syncs up to the next other answer are a group, whose ReadyForQuery are
//!   [`Heard::Group`]
//! - a Flush behind a password, a second Terminate, and errors and notices after a server's last words
//!
//! # What is left out
//!
//! - CopyFail of a COPY in both directions, on which PostgreSQL ends the session: it is [`Fault::NotRefusable`], as a request
//!   there is [`Fault::InCopy`].
//! - CopyDone or CopyFail before the CopyInResponse is heard, while a request waits: it is [`Fault::NotInCopy`], though servers
//!   take it.
//! - After such an early Sync, another request than a Sync right behind the end of the data, and any while it isn't known
//!   whether the server passes over it: it is [`Fault::SyncFirst`]. In a Query such a Sync is [`Fault::InCopy`].
//! - An error that a server says as its last words while a request waits is taken for the answer to it.
//! - Whether GSSAPI wants one more message of the client is known to GSSAPI alone, so both are taken.
//!
//! # What is proved
//!
//! Each call does what its definition says, exactly, and a fault is the one that its definition names, or [`Fault::Full`]. The
//! [`laws`] say more, and what they leave open: that the answers are those of the grammar is proved where no Sync is early, and
//! the converse where each request is said once the one before is answered, or where all are said first and no COPY takes data of
//! the client. That both ends agree is proved without last words and Terminate, and without data that a server drops.
#![tactic(auto)]

mod answer;
mod begin_answer;
mod begin_request;
mod client_flow;
mod client_message;
mod codes;
mod early_syncs;
mod fault;
mod fixed_flow;
mod flow;
mod heard;
pub mod laws;
mod mode;
mod place;
mod request;
mod server_flow;
mod server_message;
mod stage;
mod table;
mod transaction_status;

pub use fault::Fault;
pub use fixed_flow::FixedFlow;
pub use flow::Flow;
pub use heard::Heard;
pub use mode::Mode;
pub use transaction_status::TransactionStatus;
