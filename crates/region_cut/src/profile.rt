//! The two profiles of a pool: how many bits an allocator's number has, and which size classes it
//! uses.
ghost use Rattle.std.specs.Prelude.{◌≡◌, ◌≤◌, ◌<◌, ◌↔◌, IsSome, IsNone, MatchOption};
ghost use Rattle.region_cut.specs.Classes.{bits_of, classes_of, largest_of, IsLeastFor, NoClassFor};
ghost use Rattle.region_cut.specs.declared.profile.Profile.TheVariants.{Pool};

use crate::class::Class;

/// What a pool is made for: how many allocators, and requests of which sizes.
#[derive(Clone, Copy, Debug, PartialEq, Eq)]
pub enum Profile {
    /// 64 allocators, 16 classes, requests of at most 512 bytes.
    Pool,
    /// 4,096 allocators, 20 classes, requests of at most 1,024 bytes.
    Pool2,
}

impl Profile {
    /// How many bits the number of an allocator has.
    pub fn bits(self) -> u32
        ensures { result ≡ bits_of self }
    {
        match self {
            Profile::Pool => 6,
            Profile::Pool2 => 12,
        }
    }

    /// How many classes are used: those with a number below this.
    pub fn classes(self) -> u32
        ensures { result ≡ classes_of self }
    {
        match self {
            Profile::Pool => 16,
            Profile::Pool2 => 20,
        }
    }

    /// The class for a request of `n` bytes: of those that the profile uses, the least whose size
    /// is at least `n`. A request of no bytes takes the first class. `None` above the size of the
    /// profile's last class, and only there. One look at a table.
    #[tactic(auto, using(crate::proofs::ByStep::least_of, crate::proofs::ByStep::none_for))]
    pub fn class_for(self, n: usize) -> Option<Class>
        ensures least { MatchOption result (NoClassFor self n) (λ c. IsLeastFor self n c) }
        ensures some { IsSome result ↔ (n ≤ largest_of self) }
        ensures none { IsNone result ↔ (largest_of self < n) }
    {
        if n > self.largest() {
            return None;
        }
        Some(Class::least_for(n))
    }

    /// The greatest size in bytes that is lent: that of the last class that is used.
    pub fn largest(self) -> usize
        ensures { result ≡ largest_of self }
    {
        match self {
            Profile::Pool => 512,
            Profile::Pool2 => 1024,
        }
    }
}

/// The class for a request of `n` bytes in the profile `Pool`, `None` exactly above 512 bytes.
pub fn class_for(n: usize) -> Option<Class>
    ensures least { MatchOption result (NoClassFor Pool n) (λ c. IsLeastFor Pool n c) }
    ensures some { IsSome result ↔ (n ≤ largest_of Pool) }
    ensures none { IsNone result ↔ (largest_of Pool < n) }
{
    Profile::Pool.class_for(n)
}
