//! What was refused of a posting.
ghost use Rattle.std.specs.Prelude.{◌≡◌, ◌↔◌, [], ◌++◌, All, IsTrue, IsPermutation};
ghost use Rattle.digit_route.specs.Kept.{IsKept, kept_items};
ghost use Rattle.digit_route.specs.Route.{IsCached};

use crate::{Batch, Digits};
use arrayvec::ArrayVec;
use slot_chain::{Chain, Magazine};
use std::fmt;
use std::marker::Model;

// How many batches are held as they are.
const MOST: usize = 4;

/// Batches that are held as they are. Each is `Some`: an unused place has `None`.
pub(crate) type Kept<'r> = ArrayVec<Option<Batch<'r>>, MOST>;

/// The batches of one desk that no inbox took. They are held here while the desk posts the rest of its
/// cache, and then go back into it ([`Cache::take_back`](crate::Cache::take_back)).
///
/// Up to four batches are held as they are; what is refused beyond is linked. So no call takes memory,
/// and a batch that comes back brings its arrays along. Contracts see the buffers as a list in an order
/// that is open.
#[must_use]
#[derive(Drop)]
pub struct Refused<'r> {
    number: u16,
    digits: Digits,
    kept: Kept<'r>,
    linked: Chain<'r>,
}

impl<'r> Model for Refused<'r> {
    ghost use Rattle.std.specs.Prelude.{◌++◌, All};
    ghost use Rattle.digit_route.specs.Kept.{IsKept, kept_items};
    ghost use Rattle.digit_route.specs.Route.{IsCached};
    ghost use Rattle.digit_route.specs.States.{RefusedState};

    ghost Value = { RefusedState };

    ghost view = { λ r. record { number = r.number; digits = r.digits; items = kept_items r.kept.items ++ r.linked } };

    ghost invariant = { λ r. All (IsKept r.digits r.number) r.kept.items × All (IsCached r.digits r.number) r.linked };
}

impl<'r> Refused<'r> {
    /// Nothing was refused yet of the batches of the desk `number`, which reads numbers so.
    pub fn new(number: u16, digits: Digits) -> Refused<'r>
        ensures { result ≡ record { number = number; digits = digits; items = [] } }
    {
        Refused {
            number,
            digits,
            kept: ArrayVec::new(),
            linked: Chain::new(),
        }
    }

    /// Whether nothing was refused. Takes constant time.
    pub fn is_empty(&self) -> bool
        ensures { IsTrue result ↔ (self.now.items ≡ []) }
    {
        self.kept.is_empty() && self.linked.is_empty()
    }

    /// Adds the buffers of a batch of this desk: in constant time where fewer than four are held, else in
    /// time for its length.
    pub fn add(&mut self, batch: Batch<'r>)
        requires sender { batch.sender ≡ self.old.number }
        requires digits { batch.digits ≡ self.old.digits }
        ensures same { self.new ≡ record self.old { items = self.new.items } }
        ensures items { IsPermutation (self.old.items ++ batch.entry.items) self.new.items }
    {
        let _known = batch.address();
        if self.kept.is_full() {
            link_all(&mut self.linked, batch.into_magazine());
        } else {
            self.kept.push(Some(batch));
        }
    }

    // The batches that are held as they are, and the buffers that are linked.
    pub(crate) fn into_parts(self) -> (Kept<'r>, Chain<'r>)
        ensures kept { All (IsKept self.entry.digits self.entry.number) result.0.items }
        ensures linked { All (IsCached self.entry.digits self.entry.number) result.1 }
        ensures items { kept_items result.0.items ++ result.1 ≡ self.entry.items }
    {
        let Refused {
            number: _,
            digits: _,
            kept,
            linked,
        } = self;
        (kept, linked)
    }
}

// Moves each buffer of a magazine into a chain.
fn link_all<'r>(chain: &mut Chain<'r>, magazine: Magazine<'r>)
    ensures { IsPermutation (chain.old ++ magazine.entry) chain.new }
{
    let mut magazine = magazine;
    while let Some(buf) = magazine.pop() {
        chain.push(buf);
    }
}

// The buffers are not printed.
impl fmt::Debug for Refused<'_> {
    fn fmt<W: fmt::Write>(&self, f: &mut fmt::Formatter<W>) -> fmt::Result {
        write!(f, "Refused(of {})", self.number)
    }
}
