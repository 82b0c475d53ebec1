//! The size classes.
ghost use Rattle.std.specs.Prelude.{◌≡◌, ℕ, ◌<◌, ◌≤◌, MatchOption};
ghost use Rattle.region_cut.specs.Classes.{size_of, slots_of, class_count, largest_of};
ghost use Rattle.region_cut.specs.declared.profile.Profile.TheVariants.{Pool2};

use std::marker::Model;

/// How many size classes there are.
const CLASSES: u32 = 20;

/// The size in bytes of each class, by the class's number. No size stands twice, and a class of a
/// greater number has a greater size.
pub const SIZES: [usize; 20] = [
    16, 32, 48, 64, 80, 96, 112, 128, 160, 192, 224, 256, 320, 384, 448, 512, 640, 768, 896, 1024,
];

/// How many slots a chunk of each class has.
const SLOTS: [u16; 20] = [
    256, 128, 85, 64, 51, 42, 36, 32, 25, 21, 18, 16, 12, 10, 9, 8, 6, 5, 4, 4,
];

/// The number of the least class for a request, by the request's size in steps of 16 bytes, rounded
/// up. All sizes are multiples of 16, so the classes of the bytes of one step are the same.
const CLASS_BY_STEP: [u8; 65] = [
    0, 0, 1, 2, 3, 4, 5, 6, 7, 8, 8, 9, 9, 10, 10, 11, 11, 12, 12, 12, 12, 13, 13, 13, 13, 14, 14,
    14, 14, 15, 15, 15, 15, 16, 16, 16, 16, 16, 16, 16, 16, 17, 17, 17, 17, 17, 17, 17, 17, 18, 18,
    18, 18, 18, 18, 18, 18, 19, 19, 19, 19, 19, 19, 19, 19,
];

/// A size class. All slots of a chunk are of one class. Contracts see it as its number, from 0 to
/// 19; which of them a pool uses is a matter of its [`Profile`](crate::Profile).
#[derive(Clone, Copy, Debug, PartialEq, Eq, PartialOrd, Ord, Hash)]
pub struct Class {
    number: u8,
}

impl Model for Class {
    ghost use Rattle.std.specs.Prelude.{ℕ, ◌<◌};

    ghost Value = { ℕ };

    ghost view = { λ c. c.number };

    ghost use Rattle.region_cut.specs.Classes.{class_count};

    ghost invariant = { λ c. c.number < class_count };

    ghost inverse = { λ n. record { number = n } };
}

impl Class {
    /// The class of the least size, 16 bytes.
    pub const FIRST: Class = Class { number: 0 };

    /// The class of this number, or `None` where there is none, from 20 on.
    pub fn new(number: u32) -> Option<Class>
        ensures { MatchOption result (class_count ≤ number) (λ c. c ≡ number) }
    {
        if number < CLASSES {
            Some(Class {
                number: number as u8,
            })
        } else {
            None
        }
    }

    /// The least class whose size is at least `n`, of all classes: for who knows already that `n` is at most
    /// 1,024, as [`Profile::class_for`](crate::Profile::class_for) finds out. One look at a table.
    #[tactic(auto, using(crate::proofs::ByStep::least_class))]
    pub fn least_for(n: usize) -> Class
        requires { n ≤ largest_of Pool2 }
        ensures holds { n ≤ size_of result }
        ensures least { (k : ℕ) → n ≤ size_of k → k < class_count → result ≤ k }
    {
        Class {
            number: CLASS_BY_STEP[(n + 15) / 16],
        }
    }

    /// The number of the class.
    pub fn number(self) -> u32
        ensures value { result ≡ self }
        ensures in_range { result < class_count }
    {
        u32::from(self.number)
    }

    /// The size in bytes of each of its slots.
    pub fn size(self) -> usize
        ensures value { result ≡ size_of self }
    {
        SIZES[self.number as usize]
    }

    /// How many slots a chunk of the class has. What is left of the chunk behind them is never
    /// handed out.
    #[tactic(auto, using(crate::proofs::BySlots::slots_is))]
    pub fn slots(self) -> usize
        ensures value { result ≡ slots_of self }
    {
        SLOTS[self.number as usize] as usize
    }
}
