//! What Syncs before the end of a COPY's data make of the requests that wait.

/// What Syncs before the end of a COPY's data make of the requests that wait. A server drops such a Sync while it reads
/// data, and answers it where the COPY has failed.
#[derive(Clone, Copy, Debug, PartialEq, Eq)]
pub enum EarlySyncs {
    /// None was said, or none may be answered.
    Usual,
    /// An Execute is being answered that is a COPY, and one Sync more than this was said before the end of its data.
    InCopy(u64),
    /// Such a COPY failed: the number of its first Sync; the least number of ReadyForQuery that are to come; by how many,
    /// less one, there may be more; and whether the server may pass over what is said next.
    InGroup(u64, u64, u64, bool),
}
