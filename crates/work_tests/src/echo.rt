//! A source of words that are its seed.
ghost use Rattle.std.specs.Prelude.{◌≡◌, ◌∷◌, [], ◌%◌, ◌^◌, slice_index};
ghost use Rattle.rand_core.specs.Steps.{stream_of, steps_u32};

use rand_core::utils::NextWord;
use rand_core::{Rng, SeedableRng, utils};
use std::marker::Model;

/// A source that gives the number that it was made of, again and again. So the size that a worker asks
/// for tells its seed.
#[derive(Drop)]
pub struct Echo(u32);

impl Model for Echo {
    ghost use Rattle.std.specs.Prelude.{ℕ};

    ghost Value = { ℕ };

    ghost view = { λ e. e.0 };
}

impl NextWord<u32> for Echo {
    ghost step = { λ w. (w, w) };

    fn next_word(&mut self) -> u32 {
        self.0
    }
}

impl Rng for Echo {
    ghost stream = { stream_of (steps_u32 (λ w. (w, w))) };

    fn next_u32(&mut self) -> u32 {
        self.next_word()
    }

    fn next_u64(&mut self) -> u64 {
        utils::next_u64_via_u32(self)
    }

    fn fill_bytes(&mut self, dst: &mut [u8]) {
        utils::fill_bytes_via_u32(self, dst)
    }
}

// Of a seed in bytes it is the first one.
impl SeedableRng for Echo {
    type Seed = [u8; 8];

    ghost of_seed = { λ bytes. slice_index bytes 0 };

    ghost seed_of_u64 = { λ state. state % 2 ^ 32 ∷ [] };

    fn from_seed(seed: [u8; 8]) -> Echo {
        Echo(u32::from(seed[0]))
    }

    fn seed_from_u64(state: u64) -> Echo {
        Echo((state % 4_294_967_296) as u32)
    }
}
