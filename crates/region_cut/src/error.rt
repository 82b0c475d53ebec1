//! Why a region is not cut.
ghost use Rattle.std.specs.Prelude.{◌≡◌};
ghost use Rattle.region_cut.specs.Refusals.{refusal_number};

use thiserror::Error;

/// Why a region is not cut. Its bytes are then as before, and stay so until its borrow ends.
#[derive(Clone, Copy, Debug, PartialEq, Eq, Drop, Error)]
pub enum CutError {
    /// The region has more than 1,024 whole chunks. This is tested first.
    #[error("the region has more than 1024 chunks")]
    TooMany,
    /// The allocator refused the memory for the list of the parts. A region without a whole chunk
    /// needs none.
    #[error("no memory")]
    NoMemory,
}

impl CutError {
    /// Its number, from 1.
    pub fn number(self) -> u32
        ensures { result ≡ refusal_number self }
    {
        match self {
            CutError::TooMany => 1,
            CutError::NoMemory => 2,
        }
    }
}
