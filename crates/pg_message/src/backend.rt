//! What a server sends, as a server, a proxy or a pooler writes it: each message by [`encode`] or [`write()`].

pub use pg_server::backend::{
    AsOutboundItem, CopyDirection, Count, Counted, Mechanism, NoticeKind, NulEnded,
    OutboundAuthentication, OutboundBackendKeyData, OutboundColumn, OutboundCommandComplete,
    OutboundCopyData, OutboundCopyResponse, OutboundDataRow, OutboundFunctionCallResponse,
    OutboundItem, OutboundItems, OutboundMessage, OutboundNegotiateProtocolVersion, OutboundNoBody,
    OutboundNotice, OutboundNoticeField, OutboundNotification, OutboundParameterDescription,
    OutboundParameterStatus, OutboundRaw, OutboundReadyForQuery, OutboundRowDescription,
    OutboundSasl, encode, write,
};
