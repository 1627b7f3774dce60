//! What a message from a server answers.

/// What a message from a server answers. The requests are numbered from 0, in the order in which they are said.
#[derive(Clone, Copy, Debug, PartialEq, Eq)]
pub enum Heard {
    /// The request of this number.
    Answer {
        /// The number of the request.
        request: u64,
        /// Nothing more comes for it.
        is_last: bool,
    },
    /// A ReadyForQuery for one of these Syncs: which of them a server answers isn't known before another answer comes.
    Group {
        /// The number of the first of the Syncs.
        first: u64,
        /// The number of the last of them.
        last: u64,
    },
    /// No request: a notice, a notification or a setting.
    ByItself,
    /// No request: it belongs to the login.
    Login,
    /// No request: a server's last words.
    End,
}
