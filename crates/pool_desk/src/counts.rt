//! What became of a batch.
ghost use Rattle.std.specs.Prelude.{◌≡◌, ◌+◌};
ghost use Rattle.slot_chain.specs.Counts.{capped};

/// How many buffers of a batch came home, and how many are passed on, each at most the greatest
/// `u64`.
#[derive(Clone, Copy, Debug, PartialEq, Eq)]
pub struct Counts {
    /// Those that the desk owns.
    pub home: u64,
    /// Those that are now in its cache.
    pub on: u64,
}

impl Counts {
    /// So many more came home, and so many more are passed on.
    pub(crate) fn plus(self, home: usize, on: usize) -> Counts
        ensures home { result.home ≡ capped (self.home + home) }
        ensures on { result.on ≡ capped (self.on + on) }
    {
        Counts {
            home: self.home.saturating_add(home as u64),
            on: self.on.saturating_add(on as u64),
        }
    }
}
