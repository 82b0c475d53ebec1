//! Why a desk refuses.
ghost use Rattle.std.specs.Prelude.{◌≡◌};
ghost use Rattle.pool_desk.specs.Refusals.{refusal_number};

use region_cut::Class;
use thiserror::Error;

/// Why a call of a desk is refused. The desk is then as it was before the call.
#[derive(Clone, Copy, Debug, PartialEq, Eq, Drop, Error)]
pub enum DeskError {
    /// No class of the desk's profile is large enough.
    #[error("too large")]
    TooLarge,
    /// No slot of this class, the least that is large enough, is at home.
    #[error("needs a chunk")]
    NeedChunk(Class),
    /// A slot of the class is at home, so a further chunk isn't needed.
    #[error("not needed")]
    NotNeeded,
    /// The desk's cache isn't empty, so it can't be retired. `Desk::retire` hands the desk back in
    /// place of this.
    #[error("the cache is not empty")]
    Unsettled,
    /// The allocator refused the box of a buffer that was never handed out before.
    #[error("no memory")]
    NoMemory,
}

impl DeskError {
    /// Its number, from 1.
    pub fn number(self) -> u32
        ensures { result ≡ refusal_number self }
    {
        match self {
            DeskError::TooLarge => 1,
            DeskError::NeedChunk(_) => 2,
            DeskError::NotNeeded => 3,
            DeskError::Unsettled => 4,
            DeskError::NoMemory => 5,
        }
    }
}
