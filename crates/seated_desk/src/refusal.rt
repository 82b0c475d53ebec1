//! Why a call leaves all as it was.
ghost use Rattle.std.specs.Prelude.{◌≡◌};
ghost use Rattle.seated_desk.specs.Answers.{answer_of, refusal_number};

/// Why a call did nothing. Programs in C see its number.
#[derive(Clone, Copy, Debug, PartialEq, Eq, Drop)]
pub enum Refusal {
    /// No size class is large enough.
    TooLarge,
    /// No slot of the class is at home, none came, and no chunk is left to be drawn. One may come later.
    UsedUp,
    /// The C library refused memory.
    NoMemory,
    /// What was to be filled holds something already.
    Holds,
    /// What was to be used holds nothing, or nothing came.
    Empty,
    /// It belongs to another allocator or another pool.
    Stranger,
    /// There is no room for more; or, where a pool is to be closed, an allocator is still out.
    Full,
    /// An argument is out of range.
    BadArgument,
    /// As `UsedUp`, and the allocator drew no chunk for the class, so that no slot of it will ever come.
    NoChunk,
}

impl Refusal {
    /// Its number, from 1 to 9.
    pub fn number(self) -> u32
        ensures { result ≡ refusal_number self }
    {
        match self {
            Refusal::TooLarge => 1,
            Refusal::UsedUp => 2,
            Refusal::NoMemory => 3,
            Refusal::Holds => 4,
            Refusal::Empty => 5,
            Refusal::Stranger => 6,
            Refusal::Full => 7,
            Refusal::BadArgument => 8,
            Refusal::NoChunk => 9,
        }
    }
}

/// What a program in C is answered: 0, or the refusal's number.
#[inline(always)]
pub(crate) fn answer(outcome: Result<(), Refusal>) -> u32
    ensures { result ≡ answer_of outcome }
{
    match outcome {
        Ok(()) => 0,
        Err(refusal) => refusal.number(),
    }
}
