//! What a message from the server is, and how one of any kind is read.

mod authentication;
mod backend_key_data;
mod column_formats;
mod command_complete;
mod copy;
mod copy_response_ref;
mod data_row;
mod function_call_response;
mod layout;
mod negotiate_protocol_version;
mod no_body;
mod notification;
mod option_names;
mod parameter_description;
mod parameter_status;
pub(crate) mod parts;
mod protocol_message_ref;
mod ready_for_query;
pub(crate) mod response;
mod row_description;
mod server_message;
mod visitor;

pub use authentication::{
    AnyAuthenticationRef, Authentication, AuthenticationMd5Password, AuthenticationRef,
    AuthenticationSasl, AuthenticationSaslContinue, AuthenticationSaslContinueRef,
    AuthenticationSaslFinal, AuthenticationSaslFinalRef, Base64Bytes, RawAuthentication,
    SaslMechanisms, split_name, split_raw_name,
};
pub use backend_key_data::{BackendKeyData, RawKeyData};
pub use column_formats::ColumnFormats;
pub use command_complete::{CommandComplete, command_tag, rows_affected};
pub use copy::{CopyInResponse, CopyOutResponse, CopyResponseData};
pub use copy_response_ref::CopyResponseRef;
pub use data_row::{Cells, DataRow, Row, RowIndex, RowReader, cell_at};
pub use function_call_response::FunctionCallResponseRef;
pub use layout::{body_end, check_exact};
pub use negotiate_protocol_version::NegotiateProtocolVersionRef;
pub use no_body::check_no_body;
pub use notification::{Notification, NotificationRef};
pub use option_names::OptionNames;
pub use parameter_description::ParameterDescription;
pub use parameter_status::{ParameterStatus, ParameterStatusRef, RawParameterStatus};
pub use parts::{Fields, leading_u32, leading_u64, leading_usize, split_field};
pub use pg_base::io::{CopyData, CopyDone};
pub use pg_format::text::{split_text, str_at, text_at, utf8_text};
pub use pg_format::{BackendMessage, ReceivedMessage};
pub use protocol_message_ref::ProtocolMessageRef;
pub use ready_for_query::{ReadyForQuery, TransactionStatus};
pub use response::{Notice, PgSeverity, severity_in};
pub use row_description::{
    ColumnReader, Columns, Field, FieldRef, RawFieldRef, RowDescription, column_at, raw_column_at,
};
pub use server_message::{ServerMessage, ServerMessageRef};
pub use visitor::Visitor;
