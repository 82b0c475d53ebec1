//! Magazines whose buffers were taken out.
ghost use Rattle.std.specs.Prelude.{◌≡◌, []};
ghost use Rattle.slot_chain.specs.Magazines.{named_in};

use crate::buf::Buf;
use crate::parcels::Parcels;
use std::fmt;
use std::marker::Model;

/// An empty magazine: what is left of a [`Magazine`](crate::Magazine) whose buffers were taken out.
///
/// It names no buffer, and holds the memory in which they were named. Who sends magazines gets it back to
/// put others there ([`Magazine::reuse`](crate::Magazine::reuse)), as threads change full magazines for
/// empty ones with the depot of Bonwick and Adams (USENIX 2001). So the C library needn't take memory back
/// from one thread and give it out to another. Contracts see nothing of it.
pub struct EmptyMagazine<'r> {
    pub(crate) whole: Parcels<'r>,
    pub(crate) array: Option<Vec<Buf<'r>>>,
}

impl<'r> Model for EmptyMagazine<'r> {
    ghost use Rattle.std.specs.Prelude.{◌≡◌, []};
    ghost use Rattle.slot_chain.specs.Magazines.{named_in};

    ghost Value = { Unit {0} };

    ghost view = { λ _. tt };

    ghost invariant = { λ e. (e.whole ≡ []) × (named_in e.array ≡ []) };
}

// By hand, so that it is proved here once, and not again in each crate that lets one go.
impl Drop for EmptyMagazine<'_> {
    fn drop(self) {
        let EmptyMagazine { whole, array } = self;
        drop(whole);
        drop(array);
    }
}

impl Default for EmptyMagazine<'_> {
    ghost is_default = { λ _. Unit {0} };

    fn default() -> Self {
        EmptyMagazine::new()
    }
}

impl<'r> EmptyMagazine<'r> {
    /// One without memory. It takes none.
    pub fn new() -> EmptyMagazine<'r> {
        EmptyMagazine {
            whole: Parcels::new(),
            array: None,
        }
    }

    /// The room for parcels, and the array of what is put one by one.
    pub(crate) fn into_parts(self) -> (Parcels<'r>, Option<Vec<Buf<'r>>>)
        ensures whole { result.0 ≡ [] }
        ensures array { named_in result.1 ≡ [] }
    {
        let EmptyMagazine { whole, array } = self;
        (whole, array)
    }
}

impl fmt::Debug for EmptyMagazine<'_> {
    fn fmt<W: fmt::Write>(&self, f: &mut fmt::Formatter<W>) -> fmt::Result {
        f.write_str("EmptyMagazine")
    }
}
