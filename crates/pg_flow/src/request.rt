//! What a client asks for.

/// A message of a client that a server answers. Documentation: "Message Flow".
#[derive(Clone, Copy, Debug, PartialEq, Eq)]
pub enum Request {
    Query,
    /// A FunctionCall.
    Call,
    Parse,
    Bind,
    DescribeStatement,
    DescribePortal,
    Execute,
    Close,
    Sync,
}
