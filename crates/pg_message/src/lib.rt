//! The messages of the PostgreSQL wire protocol, version 3.0, with the keys and the negotiation of later
//! minor versions, in both directions: the one crate to depend on.
//!
//! To send, make a message of [`message`] and append it to a buffer by its `encode_msg`, or many at
//! once by [`message::encode_all`]. To receive, feed a [`message::FrameReader`] what the socket gives, take
//! each message that is complete, and read it by [`message::ServerMessage::decode`]. A server, a proxy or a pooler
//! finds the other side in [`frontend`] and [`backend`], and the core of a proxy in [`relay`]. The messages of
//! replication are in [`replication`].
//!
//! Except for the laws of both sides, everything stands in a crate below, where its contract is: `pg_base`,
//! `pg_format`, `pg_send`, `pg_receive`, `pg_server`, `pg_replication` and `pg_frames`. The words of the contracts
//! of `pg_base` are named from here as `Rattle.pg_message.specs.pg_base`, and so are those of the others.
#![tactic(auto)]

pub mod backend;
pub mod error;
pub mod frontend;
pub mod io;
pub mod laws;
pub mod message;
pub mod relay;
pub mod replication;

pub use error::{Error, ErrorKind, FrontendFault, PgDatabaseError, ProtocolFault};
pub use frontend::FrontendMessageRef;
pub use io::{Oid, PgValueFormat, PortalId, StatementId};
pub use message::{
    BackendMessage, BackendMessageFormat, FrameReader, FrontendMessage, FrontendMessageFormat,
    ReceivedMessage, ServerMessage, ServerMessageRef, TaggedMessage, encode_all,
};
