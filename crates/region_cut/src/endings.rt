//! What a region holds once its borrow ends, for a caller that wants it proved. A program that only
//! uses a pool needs none of it.
//!
//! A [`Front`] is a slice of which parts were lent; they are given back to it in order. [`Endings`]
//! takes slices in any order, each after those that were lent out of it. [`Ties`] keeps what is
//! known of chunks whose cursors are gone. None of it takes memory, and none of it is needed for
//! the bytes to be right.
ghost use Rattle.std.specs.Prelude.{◌≡◌, ◌∷◌, ◌++◌, [], map, All};
ghost use Rattle.region_cut.specs.Carved.{carved_of};
ghost use Rattle.region_cut.specs.Endings.{IsKnown, HasKnownSlots, ended_chunk, ended_front, Agrees};
ghost use Rattle.region_cut.specs.Fronts.{settled_of, lent_of};

mod front;
mod known;
pub(crate) mod ties;

use crate::part::Bump;
pub use crate::region::cut_with_front;
pub use front::Front;
use known::{Known, nothing, resolve};
use std::fmt;
use std::marker::{Model, PhantomData};
pub use ties::Ties;
use ties::{gather, join};

/// What slices end as that were let go, by their names. A slice ends as the bytes that it held
/// last; one of which parts were lent ends as what the parts end as, in order, and then as what was
/// left of it.
///
/// Buffers are let go first, and cursors, in any order ([`Endings::close`], [`Endings::carve`],
/// [`Endings::keep`]); then each chunk whose cursor was let go is known
/// ([`Endings::close_chunks`]), and then the region can be. Nothing of it takes memory.
///
/// Contracts see what is `known`, and the `chunks` of the cursors, which are still to be closed.
#[derive(Drop)]
pub struct Endings<'r> {
    known: Known,
    ties: Ties,
    mark: PhantomData<&'r mut u8>,
}

impl<'r> Model for Endings<'r> {
    ghost use Rattle.region_cut.specs.Endings.{EndingsState, Agrees};

    ghost Value = { EndingsState };

    ghost view = { λ e. record { known = e.known.all; chunks = e.ties.all } };

    ghost invariant = { λ e. Agrees e.known.all };
}

impl<'r> Endings<'r> {
    /// Nothing is known.
    pub fn new() -> Endings<'r>
        ensures { result ≡ record { known = []; chunks = [] } }
    {
        Endings {
            known: nothing(),
            ties: Ties::new(),
            mark: PhantomData,
        }
    }

    /// No slice ends in two ways: what was noted of a slice when it was let go is what is known of
    /// its name.
    pub fn agree(&self)
        ensures { Agrees self.now.known }
    {
        let _known = &self.known;
    }

    /// Lets go a slice: of a buffer, a part, or the region itself. All that was lent of it was let
    /// go before.
    pub fn close(&mut self, front: Front<'r>)
        requires unsettled { settled_of front ≡ [] }
        requires known { All (IsKnown self.old.known) (lent_of front) }
        ensures { self.new ≡ record self.old { known = ended_front self.old.known front.entry ∷ self.old.known } }
    {
        let Front { rest, mut tie } = front;
        let mut ties = Ties::new();
        gather(&mut ties, &mut tie, rest, 0, 0);
        resolve(&mut self.known, &mut ties);
    }

    /// Lets go a cursor, with the slots that it did not give.
    pub fn carve(&mut self, bump: Bump<'r>)
        ensures { self.new ≡ record self.old { chunks = carved_of bump.entry ∷ self.old.chunks } }
    {
        let chunk = bump.chunk();
        let class = bump.class().number();
        let Front { rest, mut tie } = bump.into_front();
        gather(&mut self.ties, &mut tie, rest, chunk, class);
    }

    /// Takes over what is known of chunks whose cursors are gone.
    pub fn keep(&mut self, ties: Ties)
        ensures { self.new ≡ record self.old { chunks = ties.all ++ self.old.chunks } }
    {
        let mut ties = ties;
        join(&mut self.ties, &mut ties);
    }

    /// Closes the chunks of all cursors. All slots that these gave were let go before.
    pub fn close_chunks(&mut self)
        requires { All (HasKnownSlots self.old.known) self.old.chunks }
        ensures { self.new ≡ record {
          known = map (ended_chunk self.old.known) self.old.chunks ++ self.old.known;
          chunks = [];
        } }
    {
        resolve(&mut self.known, &mut self.ties);
    }
}

// What is known is known to contracts alone, so there is nothing to print.
impl fmt::Debug for Endings<'_> {
    fn fmt<W: fmt::Write>(&self, f: &mut fmt::Formatter<W>) -> fmt::Result {
        f.write_str("Endings")
    }
}
