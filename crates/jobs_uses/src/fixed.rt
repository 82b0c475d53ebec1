//! A source of sizes that are all the same.
ghost use Rattle.std.specs.Prelude.{◌≡◌};
ghost use Rattle.rand_core.specs.Pcg32Seed.{pcg32_seed};
ghost use Rattle.rand_core.specs.Steps.{stream_of, steps_u32};

use rand_core::utils::NextWord;
use rand_core::{Rng, SeedableRng, utils};
use std::marker::Model;

// The word that it gives.
const WORD: u32 = 511;

/// A source of random numbers that gives the word 511, again and again: a workload then asks for 512
/// bytes each time, of which a chunk has eight slots.
#[derive(Drop)]
pub struct Fixed(u32);

impl Model for Fixed {
    ghost use Rattle.std.specs.Prelude.{ℕ};

    ghost Value = { ℕ };

    ghost view = { λ f. f.0 };
}

impl NextWord<u32> for Fixed {
    ghost step = { λ w. (w, w) };

    fn next_word(&mut self) -> u32 {
        self.0
    }
}

impl Rng for Fixed {
    ghost stream = { stream_of (steps_u32 (λ w. (w, w))) };

    fn next_u32(&mut self) -> u32 {
        self.next_word()
    }

    fn next_u64(&mut self) -> u64 {
        utils::next_u64_via_u32(self)
    }

    fn fill_bytes(&mut self, dst: &mut [u8]) {
        utils::fill_bytes_via_u32(self, dst)
    }
}

impl SeedableRng for Fixed {
    type Seed = [u8; 8];

    ghost of_seed = { λ _. 511 };

    ghost seed_of_u64 = { pcg32_seed 8 };

    fn from_seed(_seed: [u8; 8]) -> Fixed {
        Fixed(WORD)
    }

    fn seed_from_u64(_state: u64) -> Fixed {
        Fixed(WORD)
    }
}
