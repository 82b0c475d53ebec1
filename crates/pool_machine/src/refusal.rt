//! Why a request is refused.
ghost use Rattle.std.specs.Prelude.{◌≡◌};
ghost use Rattle.pool_machine.specs.RefusalNames.{refusal_number, refusal_name};

use thiserror::Error;

/// Why a request was refused. The pool is then as it was before it.
#[derive(Clone, Copy, Debug, PartialEq, Eq, Drop, Error)]
pub enum Refusal {
    /// R01: no desk has this number.
    #[error("R01 NoDesk")]
    NoDesk,
    /// R02: no worker holds the desk.
    #[error("R02 Idle")]
    Idle,
    /// R03: no class is large enough.
    #[error("R03 TooLarge")]
    TooLarge,
    /// R04: the desk has no slot of the class at home.
    #[error("R04 NeedChunk")]
    NeedChunk,
    /// R05: the desk has a slot of the class at home.
    #[error("R05 NotNeeded")]
    NotNeeded,
    /// R06: every chunk is drawn.
    #[error("R06 NoChunk")]
    NoChunk,
    /// R07: the slot isn't lent, or there is no such slot.
    #[error("R07 NotLent")]
    NotLent,
    /// R08: nothing in the desk's cache goes to the other desk.
    #[error("R08 NothingFor")]
    NothingFor,
    /// R09: the other desk owns none of the buffers that would go to it.
    #[error("R09 NotAnOwner")]
    NotAnOwner,
    /// R10: a desk sends nothing to itself.
    #[error("R10 ToSelf")]
    ToSelf,
    /// R11: no batch of this number waits to be linked.
    #[error("R11 NoBatch")]
    NoBatch,
    /// R12: the inbox is empty, or its front isn't linked.
    #[error("R12 Nothing")]
    Nothing,
    /// R13: the desk's cache isn't empty, or a batch that it sent isn't linked.
    #[error("R13 Unsettled")]
    Unsettled,
    /// R14: a worker holds the desk.
    #[error("R14 Held")]
    Held,
    /// R15: a growth was refused.
    #[error("R15 NoMemory")]
    NoMemory,
    /// R16: no class has this number.
    #[error("R16 BadClass")]
    BadClass,
    /// R18: every number that a batch can have was given.
    #[error("R18 Spent")]
    Spent,
}

impl Refusal {
    /// Its number, as in `R04 NeedChunk`.
    pub fn number(self) -> u32
        ensures { result ≡ refusal_number self }
    {
        match self {
            Refusal::NoDesk => 1,
            Refusal::Idle => 2,
            Refusal::TooLarge => 3,
            Refusal::NeedChunk => 4,
            Refusal::NotNeeded => 5,
            Refusal::NoChunk => 6,
            Refusal::NotLent => 7,
            Refusal::NothingFor => 8,
            Refusal::NotAnOwner => 9,
            Refusal::ToSelf => 10,
            Refusal::NoBatch => 11,
            Refusal::Nothing => 12,
            Refusal::Unsettled => 13,
            Refusal::Held => 14,
            Refusal::NoMemory => 15,
            Refusal::BadClass => 16,
            Refusal::Spent => 18,
        }
    }

    /// Its name, as in `R04 NeedChunk`.
    pub fn name(self) -> &'static str
        ensures { result.now ≡ refusal_name self }
    {
        match self {
            Refusal::NoDesk => "NoDesk",
            Refusal::Idle => "Idle",
            Refusal::TooLarge => "TooLarge",
            Refusal::NeedChunk => "NeedChunk",
            Refusal::NotNeeded => "NotNeeded",
            Refusal::NoChunk => "NoChunk",
            Refusal::NotLent => "NotLent",
            Refusal::NothingFor => "NothingFor",
            Refusal::NotAnOwner => "NotAnOwner",
            Refusal::ToSelf => "ToSelf",
            Refusal::NoBatch => "NoBatch",
            Refusal::Nothing => "Nothing",
            Refusal::Unsettled => "Unsettled",
            Refusal::Held => "Held",
            Refusal::NoMemory => "NoMemory",
            Refusal::BadClass => "BadClass",
            Refusal::Spent => "Spent",
        }
    }
}
