//! Why a batch is not posted.
ghost use Rattle.std.specs.Prelude.{◌≡◌};
ghost use Rattle.batch_inbox.specs.Refusals.{refusal_number};

use thiserror::Error;

/// Why a queue refuses a batch. The batch is handed back, and the seat is as before.
#[derive(Clone, Copy, Debug, PartialEq, Eq, Drop, Error)]
pub enum PostError {
    /// The queue has no room: a growth was refused.
    #[error("no room")]
    NoRoom,
    /// No node of the sender is free.
    #[error("no node")]
    NoNode,
}

impl PostError {
    /// Its number, from 1.
    pub fn number(self) -> u32
        ensures { result ≡ refusal_number self }
    {
        match self {
            PostError::NoRoom => 1,
            PostError::NoNode => 2,
        }
    }
}
