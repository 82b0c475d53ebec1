//! What an audit finds wrong.
ghost use Rattle.std.specs.Prelude.{◌≡◌};
ghost use Rattle.slot_audit.specs.Audit.{fault_number};

use region_cut::Slot;
use thiserror::Error;

/// Why an audit doesn't say yes. The slot named is the least of its kind.
#[derive(Clone, Copy, Debug, PartialEq, Eq, Drop, Error)]
pub enum Fault {
    /// The slot was found, and is no slot of a drawn chunk.
    #[error("stranger {0}")]
    Stranger(Slot),
    /// The slot of a drawn chunk was found more than once. There is no stranger.
    #[error("doubled {0}")]
    Doubled(Slot),
    /// The slot of a drawn chunk wasn't found. There is no stranger, and no slot is doubled.
    #[error("missing {0}")]
    Missing(Slot),
    /// The allocator refused the table of an audit, of whose slots it is known then that no stranger is
    /// among them; or, where the slots were to be listed first, their list.
    #[error("no memory")]
    NoMemory,
}

impl Fault {
    /// Its number, from 1.
    pub fn number(self) -> u32
        ensures { result ≡ fault_number self }
    {
        match self {
            Fault::Stranger(_) => 1,
            Fault::Doubled(_) => 2,
            Fault::Missing(_) => 3,
            Fault::NoMemory => 4,
        }
    }
}
