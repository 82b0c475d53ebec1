//! Parcels that are kept as they came.
ghost use Rattle.std.specs.Prelude.{◌≡◌, ◌≢◌, ◌≤◌, ◌↔◌, [], ◌∷◌, ◌++◌, length, map, IsTrue, MatchOption};
ghost use Rattle.slot_chain.specs.Buffer.{ended_of};
ghost use Rattle.slot_chain.specs.Counts.{capped};
ghost use Rattle.slot_chain.specs.Magazines.{AreFilled, packed_in, parcels_in};

use crate::parcel::BufParcel;
use region_cut::endings::Endings;
use std::alloc::Global;
use std::fmt;
use std::marker::Model;

/// Parcels that came as a whole and are kept so, none of them empty: a depot, as Bonwick and Adams have
/// it for magazines (USENIX 2001). In contracts they are one list of buffers.
///
/// They lie in a box, so that a list takes two words for them, where it has any and where it has none.
/// Only [`Parcels::make_room`] takes memory. They may be dropped, with all their buffers.
#[must_use]
pub struct Parcels<'r> {
    parcels: Option<Box<Vec<BufParcel<'r>>>>,
}

impl<'r> Model for Parcels<'r> {
    ghost use Rattle.std.specs.Prelude.{List};
    ghost use Rattle.slot_chain.specs.Buffer.{Buffer};
    ghost use Rattle.slot_chain.specs.Magazines.{parcels_in, packed_in, AreFilled};

    ghost Value = { List Buffer };

    ghost view = { λ p. packed_in (parcels_in p.parcels) };

    ghost invariant = { λ p. AreFilled (parcels_in p.parcels) };
}

// By hand, so that it is proved here once, and not again in each crate that lets a magazine go.
impl Drop for Parcels<'_> {
    fn drop(self) {
        let Parcels { parcels } = self;
        drop(parcels);
    }
}

impl<'r> Parcels<'r> {
    /// None, and room for none.
    pub fn new() -> Parcels<'r>
        ensures { result ≡ [] }
    {
        Parcels { parcels: None }
    }

    /// For how many there is room, those that are there counted too.
    pub fn places(&self) -> usize {
        match &self.parcels {
            None => 0,
            Some(parcels) => parcels.capacity(),
        }
    }

    /// Makes room for so many, where there is none of them. Says whether there was memory for it: where
    /// it is refused, all stays as it is.
    pub fn make_room(&mut self, alloc: Global, places: usize) -> bool
        requires { self.old ≡ [] }
        ensures { self.new ≡ [] }
    {
        let Ok(parcels) = Vec::with_capacity(alloc, places) else {
            return false;
        };
        match Box::new(alloc, parcels) {
            Ok(parcels) => {
                self.parcels = Some(parcels);
                true
            }
            Err(_) => false,
        }
    }

    /// Whether there is a place for one more.
    pub fn has_room(&self) -> bool {
        self.as_slice().len() < self.places()
    }

    /// Puts a parcel to the end, where there is a place for it; else hands it back. None of its buffers is
    /// looked at.
    pub fn put(&mut self, parcel: BufParcel<'r>) -> Option<BufParcel<'r>>
        requires { parcel.items ≢ [] }
        ensures { MatchOption result (self.new ≡ self.old ++ parcel.entry.items)
            (λ p. (p ≡ parcel.entry) × (self.new ≡ self.old)) }
    {
        offer(&mut self.parcels, parcel)
    }

    /// Takes out the parcel that came last. None of its buffers is looked at.
    pub fn take(&mut self) -> Option<BufParcel<'r>>
        ensures { MatchOption result ((self.old ≡ []) × (self.new ≡ []))
            (λ p. (self.old ≡ self.new ++ p.items) × (p.items ≢ [])) }
    {
        take_last(&mut self.parcels)
    }

    /// Takes out the parcel that came last, where it has so many places and at most `most` buffers.
    pub fn take_fitting(&mut self, most: usize, places: usize) -> Option<BufParcel<'r>>
        ensures { MatchOption result (self.new ≡ self.old)
            (λ p. (self.old ≡ self.new ++ p.items) × (p.items ≢ []) × (length p.items ≤ most)
            × (p.places ≡ places)) }
    {
        take_last_fitting(&mut self.parcels, most, places)
    }

    /// Lets go all buffers: it is then known what each ends as. Takes a walk over them.
    pub fn end(self, endings: &mut Endings<'r>)
        ensures { endings.new ≡ record endings.old { known = map ended_of self.entry ++ endings.old.known } }
    {
        let mut parcels = self;
        while let Some(parcel) = parcels.take() {
            parcel.end(endings);
        }
    }

    /// Whether there is none.
    #[tactic(auto, using(crate::proofs::Filled::packs_none, crate::proofs::Filled::none_packed))]
    pub fn is_empty(&self) -> bool
        ensures { IsTrue result ↔ (self.now ≡ []) }
    {
        self.as_slice().is_empty()
    }

    /// How many buffers they have, or the greatest `u64` where that is less.
    pub fn len(&self) -> u64
        ensures { result ≡ capped (length self.now) }
    {
        let mut total = 0u64;
        for parcel in self.as_slice() {
            total = total.saturating_add(parcel.len() as u64);
        }
        total
    }

    /// The parcels, to be looked at.
    pub(crate) fn as_slice(&self) -> &[BufParcel<'r>]
        ensures value { packed_in result.now ≡ self.now }
        ensures filled { AreFilled result.now }
    {
        match &self.parcels {
            None => Default::default(),
            Some(parcels) => parcels.as_slice(),
        }
    }
}

// Puts a parcel to the end, where there is a place for it; else hands it back.
fn offer<'r>(
    parcels: &mut Option<Box<Vec<BufParcel<'r>>>>,
    parcel: BufParcel<'r>,
) -> Option<BufParcel<'r>>
    requires { parcel.items ≢ [] }
    ensures { MatchOption result (parcels_in parcels.new ≡ parcels_in parcels.old ++ parcel.entry ∷ [])
        (λ p. (p ≡ parcel.entry) × (parcels.new ≡ parcels.old)) }
{
    match parcels {
        None => Some(parcel),
        Some(parcels) => {
            if parcels.len() >= parcels.capacity() {
                return Some(parcel);
            }
            parcels.push_reserved(parcel);
            None
        }
    }
}

// Takes out the parcel that came last.
fn take_last<'r>(parcels: &mut Option<Box<Vec<BufParcel<'r>>>>) -> Option<BufParcel<'r>>
    ensures { MatchOption result ((parcels_in parcels.old ≡ []) × (parcels_in parcels.new ≡ []))
        (λ p. parcels_in parcels.old ≡ parcels_in parcels.new ++ p ∷ []) }
{
    match parcels {
        None => None,
        Some(parcels) => parcels.pop(),
    }
}

// Takes out the parcel that came last, where it has so many places and at most `most` buffers.
fn take_last_fitting<'r>(
    parcels: &mut Option<Box<Vec<BufParcel<'r>>>>,
    most: usize,
    places: usize,
) -> Option<BufParcel<'r>>
    ensures { MatchOption result (parcels_in parcels.new ≡ parcels_in parcels.old)
        (λ p. (parcels_in parcels.old ≡ parcels_in parcels.new ++ p ∷ []) × (length p.items ≤ most)
        × (p.places ≡ places)) }
{
    match parcels {
        None => None,
        Some(parcels) => {
            let parcel = parcels.pop()?;
            if parcel.len() <= most && parcel.places() == places {
                return Some(parcel);
            }
            parcels.push_reserved(parcel);
            None
        }
    }
}

// The buffers are counted, and not printed.
impl fmt::Debug for Parcels<'_> {
    fn fmt<W: fmt::Write>(&self, f: &mut fmt::Formatter<W>) -> fmt::Result {
        write!(f, "Parcels({} buffers)", self.len())
    }
}
