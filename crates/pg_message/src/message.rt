//! The messages of both directions, and the stream that brings those of a server.

pub use pg_base::io::{CopyData, CopyDone};
pub use pg_base::{BackendMessageFormat, FrontendMessageFormat};
pub use pg_frames::{
    Frame, FrameHead, FrameReader, RawFrame, StreamEnd, first_length, next_frame, next_raw_frame,
    read_pieces,
};
pub use pg_receive::message::{
    Authentication, AuthenticationMd5Password, AuthenticationSasl, AuthenticationSaslContinue,
    AuthenticationSaslFinal, BackendKeyData, BackendMessage, Cells, ColumnReader, Columns,
    CommandComplete, CopyInResponse, CopyOutResponse, CopyResponseData, DataRow, Field, FieldRef,
    Fields, Notice, Notification, NotificationRef, ParameterDescription, ParameterStatus,
    ParameterStatusRef, RawAuthentication, RawFieldRef, RawKeyData, RawParameterStatus,
    ReadyForQuery, ReceivedMessage, Row, RowDescription, RowIndex, RowReader, SaslMechanisms,
    ServerMessage, ServerMessageRef, TransactionStatus, Visitor, cell_at, check_no_body, column_at,
    command_tag, raw_column_at, rows_affected, severity_in, split_field, split_name,
};

// The messages to the server, one by one and in runs.
pub use pg_send::message::{
    Bind, BindValues, BodyOf, CODE_LENGTH, CancelRequest, Close, CopyFail, CopyFailRef, Describe,
    EncodeMessage, Execute, Flush, Framed, FrontendMessage, FunctionCall, GssEncRequest,
    GssResponse, PROTOCOL_VERSION, Parse, Password, Query, RawBind, RawClose, RawDescribe,
    RawExecute, RawParse, RawStartup, SaslInitial, SaslInitialResponse, SaslResponse, SslRequest,
    Startup, Sync, TaggedMessage, Terminate, encode_all, encode_frame, encode_strict, put_if_fits,
    write_frame,
};

// What a message to the server is made of.
pub use pg_send::message::{
    BindParts, ParseParts, RawTargetOf, TargetOf, composed, counted, round_trip, settings,
    untagged, values,
};

// Requests for authentication, borrowed.
pub use pg_receive::message::{
    AuthenticationRef, AuthenticationSaslContinueRef, AuthenticationSaslFinalRef, Base64Bytes,
    split_raw_name,
};

// The whole protocol, with the messages and methods that sqlx-postgres doesn't know.
pub use pg_format::ProtocolMessageKind;
pub use pg_frames::{ProtocolFrame, next_protocol_frame};
pub use pg_receive::message::{
    AnyAuthenticationRef, ColumnFormats, CopyResponseRef, FunctionCallResponseRef,
    NegotiateProtocolVersionRef, OptionNames, ProtocolMessageRef,
};
