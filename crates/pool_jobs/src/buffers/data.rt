//! What a buffer is filled with, to be looked at.
ghost use Rattle.std.specs.Prelude.{◌≡◌, length};

use slot_chain::Buf;

/// A buffer that is filled with bytes.
pub trait Data {
    ghost use Rattle.std.specs.Prelude.{List, ℕ};

    /// What is filled.
    ghost filling: { Self → List ℕ };

    /// What is filled.
    fn data(&self) -> &[u8]
        ensures { result.now ≡ filling self.now };
}

impl Data for Buf<'_> {
    ghost use Rattle.slot_chain.specs.Filling.{data_of};

    ghost filling = { data_of };

    fn data(&self) -> &[u8] {
        self.data()
    }
}
