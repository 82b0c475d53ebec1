//! The lent buffers, each found by the numbers of its slot.
ghost use Rattle.std.specs.Prelude.{◌≡◌, ◌<◌, ◌≤◌, ◌*◌, ◌+◌, length, replicate, slice_set, IfOk, MatchOption, Some};
ghost use Rattle.std.specs.Prelude.{None, is_some, map, ◌++◌};
ghost use Rattle.std.specs.Option.{option_to_list};
ghost use Rattle.slot_chain.specs.Buffer.{ended_of};
ghost use Rattle.std.specs.Prelude.{count_by};
ghost use Rattle.slot_chain.specs.Slots.{slot_of};
ghost use Rattle.region_cut.specs.Limits.{chunk_limit};
ghost use Rattle.event_floor.specs.Lent.{chunk_places, lent_at, index_of, buffers_lent};

use region_cut::Slot;
use region_cut::endings::Endings;
use slot_chain::{Buf, NoMemory};
use std::alloc::Global;
use std::marker::Model;

/// How many places a chunk has in the table: the most slots that a chunk can have.
const PLACES: usize = 256;

/// A table with a place for each slot that a chunk could have, where the slot's buffer lies while it is lent.
/// Contracts see it as the list of its places.
#[derive(Drop)]
pub(crate) struct Lent<'r> {
    places: Vec<Option<Buf<'r>>>,
}

impl<'r> Model for Lent<'r> {
    ghost use Rattle.std.specs.Prelude.{List, Option};
    ghost use Rattle.slot_chain.specs.Buffer.{Buffer};
    ghost use Rattle.event_floor.specs.Lent.{AreInPlace};

    ghost Value = { List (Option Buffer) };

    ghost view = { λ l. l.places.items };

    ghost invariant = { λ l. AreInPlace l.places.items };
}

impl<'r> Lent<'r> {
    /// A table for so many chunks, with no buffer.
    pub(crate) fn new(alloc: Global, chunks: usize) -> Result<Lent<'r>, NoMemory>
        requires { chunks ≤ chunk_limit }
        ensures { IfOk result (λ l. l ≡ replicate (chunk_places * chunks) None) }
    {
        let count = PLACES * chunks;
        let mut places = Vec::with_capacity(alloc, count)?;
        for _place in 0..count {
            places.push_reserved(None);
        }
        Ok(Lent { places })
    }

    /// Puts a lent buffer into the place of its slot.
    pub(crate) fn put(&mut self, buf: Buf<'r>)
        requires within { index_of buf.slot < length self.old }
        requires index { buf.slot.index < chunk_places }
        ensures { self.new ≡ slice_set self.old (index_of buf.entry.slot) (Some buf.entry) }
    {
        let slot = buf.slot();
        let place = PLACES * slot.chunk as usize + slot.index as usize;
        let _none = self.places[place].replace(buf);
    }

    /// Takes the lent buffer of a slot, or None where the slot isn't lent or isn't there at all.
    pub(crate) fn take(&mut self, chunk: u32, index: u32) -> Option<Buf<'r>>
        ensures { MatchOption result
            ((lent_at self.old chunk index ≡ None) × (self.new ≡ self.old))
            (λ b. (lent_at self.old chunk index ≡ Some b) × (b.slot ≡ record { chunk = chunk; index = index })
            × (index < chunk_places) × (index_of b.slot < length self.old)
            × (self.new ≡ slice_set self.old (index_of b.slot) None)) }
    {
        let place = PLACES * chunk as usize + index as usize;
        if index as usize >= PLACES || place >= self.places.len() {
            return None;
        }
        self.places[place].take()
    }

    /// Lets go all lent buffers.
    pub(crate) fn end(self, endings: &mut Endings<'r>)
        ensures { endings.new ≡ record endings.old {
          known = map ended_of (buffers_lent self.entry) ++ endings.old.known;
        } }
    {
        let Lent { places } = self;
        let mut places = places;
        while let Some(place) = places.pop() {
            end_place(place, endings);
        }
    }

    /// How many buffers are lent, by a walk over the table.
    pub(crate) fn count(&self) -> u64
        ensures { result ≡ count_by is_some self.now }
    {
        self.places.iter().filter(|place| place.is_some()).count() as u64
    }

    /// The slots of the lent buffers, by a walk over the table.
    pub(crate) fn slots(&self, alloc: Global) -> Result<Vec<Slot>, NoMemory>
        ensures { IfOk result (λ slots. slots.items ≡ map slot_of (buffers_lent self.now)) }
    {
        let mut slots = Vec::new(alloc);
        for place in &self.places {
            if let Some(buf) = place {
                slots.push(buf.slot())?;
            }
        }
        Ok(slots)
    }
}

// Lets go the buffer of a place, where one is there.
fn end_place<'r>(place: Option<Buf<'r>>, endings: &mut Endings<'r>)
    ensures { endings.new ≡ record endings.old {
      known = map ended_of (option_to_list place.entry) ++ endings.old.known;
    } }
{
    if let Some(buf) = place {
        endings.close(buf.into_front());
    }
}
