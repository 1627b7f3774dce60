//! The status of a transaction.

ghost use Rattle.std.specs.Prelude.{◌≡◌};
ghost use Rattle.pg_flow.specs.TransactionStatus.{status_of};

/// The status that a ReadyForQuery reports.
#[derive(Clone, Copy, Debug, PartialEq, Eq)]
pub enum TransactionStatus {
    /// Not in a transaction block.
    Idle,
    /// In a transaction block.
    Transaction,
    /// In a transaction block that has failed.
    Error,
}

impl TransactionStatus {
    /// The status with which the body of a ReadyForQuery begins.
    pub fn of(first: &[u8]) -> Option<TransactionStatus>
        ensures { result ≡ status_of first.now }
    {
        match first {
            [b'I', ..] => Some(TransactionStatus::Idle),
            [b'T', ..] => Some(TransactionStatus::Transaction),
            [b'E', ..] => Some(TransactionStatus::Error),
            _ => None,
        }
    }
}
