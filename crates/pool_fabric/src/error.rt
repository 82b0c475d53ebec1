//! Why not all is gathered.
ghost use Rattle.std.specs.Prelude.{◌≡◌};
ghost use Rattle.pool_fabric.specs.Refusals.{gather_number};

use crate::in_part::FoundInPart;
use thiserror::Error;

/// Why not all was gathered.
#[derive(Debug, Drop, Error)]
pub enum GatherError<'r> {
    /// Memory was refused. What was handed in is dropped.
    #[error("no memory")]
    NoMemory,
    /// The station of a desk didn't come back. This is what the others have.
    #[error("the station of desk {} is missing", .0.missing)]
    Missing(FoundInPart<'r>),
}

impl GatherError<'_> {
    /// Its number, from 1.
    pub fn number(&self) -> u32
        ensures { result ≡ gather_number self.now }
    {
        match self {
            GatherError::NoMemory => 1,
            GatherError::Missing(_) => 2,
        }
    }
}
