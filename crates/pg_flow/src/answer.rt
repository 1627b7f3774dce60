//! What answers a request.

/// A message of a server that answers a request. A notice, a notification and a setting may come at any time, and answer none.
#[derive(Clone, Copy, Debug, PartialEq, Eq)]
pub enum Answer {
    ParseComplete,
    BindComplete,
    CloseComplete,
    ParameterDescription,
    RowDescription,
    NoData,
    DataRow,
    CommandComplete,
    /// An EmptyQueryResponse.
    EmptyQuery,
    PortalSuspended,
    /// A CopyInResponse.
    CopyIn,
    /// A CopyOutResponse.
    CopyOut,
    /// A CopyBothResponse.
    CopyBoth,
    CopyData,
    CopyDone,
    /// A FunctionCallResponse.
    FunctionResult,
    /// An ErrorResponse.
    Failure,
    /// A ReadyForQuery.
    Ready,
}
