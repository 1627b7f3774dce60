//! What a client sends, as a server, a proxy or a recorder reads it: its first by
//! [`FirstMessageRef::read`], any other by [`FrontendMessageRef::read`]; both out of a stream by
//! [`FrontendFrameReader`].

pub use pg_frames::frontend::{
    ClientMessage, ClientMessageKind, ClientMessageRef, ClientStreamEnd, Expects, FrontendFrame,
    FrontendFrameReader, MAX_FIRST_LENGTH, after_first, next_frontend_frame, read_client_pieces,
};
pub use pg_server::frontend::{
    BindRef, CancelRequestRef, ExecuteRef, FirstMessageRef, FormatCodes, FrontendMessageRef,
    FunctionCallRef, ParameterTypes, ParseRef, SaslInitialRef, Settings, Target, TargetRef, Values,
    format_of, parts, read_empty, read_text, utf8_text,
};
