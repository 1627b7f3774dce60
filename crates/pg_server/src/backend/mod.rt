//! What a message to a client is, and how one is written.
//!
//! Texts are any bytes but NUL, in the encoding that the client asked for.

mod authentication;
mod backend_key_data;
mod command_complete;
mod copy;
mod data_row;
mod function_call_response;
pub mod laws;
mod negotiate_protocol_version;
mod no_body;
mod notice;
mod notification;
mod outbound_item;
mod outbound_message;
mod parameter_description;
mod parameter_status;
mod raw;
mod ready_for_query;
mod row_description;
mod sasl;
pub(crate) mod text;

pub use authentication::OutboundAuthentication;
pub use backend_key_data::OutboundBackendKeyData;
pub use command_complete::OutboundCommandComplete;
pub use copy::{CopyDirection, OutboundCopyData, OutboundCopyResponse};
pub use data_row::OutboundDataRow;
pub use function_call_response::OutboundFunctionCallResponse;
pub use negotiate_protocol_version::OutboundNegotiateProtocolVersion;
pub use no_body::OutboundNoBody;
pub use notice::{NoticeKind, OutboundNotice, OutboundNoticeField};
pub use notification::OutboundNotification;
pub use outbound_item::{AsOutboundItem, Count, Counted, OutboundItem, OutboundItems};
pub use outbound_message::{OutboundMessage, encode, write};
pub use parameter_description::OutboundParameterDescription;
pub use parameter_status::OutboundParameterStatus;
pub use raw::OutboundRaw;
pub use ready_for_query::OutboundReadyForQuery;
pub use row_description::{OutboundColumn, OutboundRowDescription};
pub use sasl::{Mechanism, OutboundSasl};
pub use text::NulEnded;
