//! The chunks of a region: those that are drawn, and the parts of those that aren't.
ghost use Rattle.std.specs.Prelude.{◌≡◌, ◌<◌, ◌∷◌, ◌++◌, [], length, IfOk, IfErr, MatchOption};
ghost use Rattle.std.specs.Prelude.{Some, drop, map, option_map, slice_get};
ghost use Rattle.event_floor.specs.Chunks.{class_drawn, ended_part, ended_parts};
ghost use Rattle.region_cut.specs.Parts.{AreNumbered, name_of, bytes_of};
ghost use Rattle.region_cut.specs.declared.part.Part.{Part};

use crate::part_names::{PartNames, names_of};
use pool_machine::DrawnChunk;
use region_cut::endings::Endings;
use region_cut::{Class, Part};
use std::alloc::Global;
use std::marker::Model;

/// All chunks of a region. They are drawn in the order of their numbers.
#[derive(Drop)]
pub(crate) struct Chunks<'r> {
    // the least number is last
    undrawn: Vec<Part<'r>>,
    drawn: Vec<DrawnChunk>,
    names: PartNames,
}

impl<'r> Model for Chunks<'r> {
    ghost use Rattle.std.specs.Prelude.{◌+◌, ◌≤◌, length, map, reverse, vec_capacity};
    ghost use Rattle.region_cut.specs.Parts.{bytes_of};
    ghost use Rattle.event_floor.specs.Chunks.{ChunksState, AreUndrawn};

    ghost Value = { ChunksState };

    ghost view = { λ c. record {
      parts = c.names.all;
      drawn = c.drawn.items;
      undrawn = reverse (map bytes_of c.undrawn.items);
    } };

    ghost invariant = { λ c. AreUndrawn (length c.drawn.items) c.names.all c.undrawn.items
        × (length c.drawn.items + length c.undrawn.items ≤ vec_capacity c.drawn) };
}

impl<'r> Chunks<'r> {
    /// The chunks of these parts, none of them drawn. Where there is no memory the parts come back.
    pub(crate) fn new(alloc: Global, parts: Vec<Part<'r>>) -> Result<Chunks<'r>, Vec<Part<'r>>>
        requires { AreNumbered parts.items }
        ensures undrawn { IfOk result (λ c.
            c ≡ record {
              parts = map name_of parts.entry.items;
              drawn = [];
              undrawn = map bytes_of parts.entry.items;
            }) }
        ensures back { IfErr result (λ back. back ≡ parts.entry) }
    {
        let Ok(drawn) = Vec::with_capacity(alloc, parts.len()) else {
            return Err(parts);
        };
        let names = names_of(&parts);
        let mut undrawn = parts;
        undrawn.reverse();
        Ok(Chunks {
            undrawn,
            drawn,
            names,
        })
    }

    /// Draws the undrawn chunk with the least number. Takes no memory.
    pub(crate) fn draw(&mut self, owner: u32, class: Class) -> Option<Part<'r>>
        ensures { MatchOption result
            ((length self.old.drawn ≡ length self.old.parts) × (self.new ≡ self.old))
            (λ (p : Part). (p.chunk ≡ length self.old.drawn) × (slice_get self.old.parts p.chunk ≡ Some (name_of p))
            × (length self.old.drawn < length self.old.parts)
            × (self.old.undrawn ≡ bytes_of p ∷ self.new.undrawn)
            × (self.new ≡ record self.old {
              drawn = self.old.drawn ++ record { owner = owner; class = class } ∷ [];
              undrawn = self.new.undrawn;
            })) }
    {
        let part = self.undrawn.pop()?;
        self.drawn.push_reserved(DrawnChunk { owner, class });
        Some(part)
    }

    /// Lets go the parts that aren't drawn.
    pub(crate) fn end(self, endings: &mut Endings<'r>)
        ensures { endings.new ≡ record endings.old {
          known = ended_parts (drop (length self.entry.drawn) self.entry.parts) self.entry.undrawn ++ endings.old.known;
        } }
    {
        let Chunks {
            undrawn,
            drawn: _,
            names: _,
        } = self;
        let mut undrawn = undrawn;
        undrawn.reverse();
        end_parts(undrawn, endings);
    }

    /// How many there are, drawn or not.
    pub(crate) fn count(&self) -> usize
        ensures { result ≡ length self.now.parts }
    {
        self.drawn.len() + self.undrawn.len()
    }

    /// How many are drawn.
    pub(crate) fn drawn_count(&self) -> u64
        ensures { result ≡ length self.now.drawn }
    {
        self.drawn.len() as u64
    }

    /// The class that the chunk was drawn for.
    pub(crate) fn class_of(&self, chunk: u32) -> Option<Class>
        ensures { result ≡ class_drawn self.now.drawn chunk }
    {
        let drawn = self.drawn.get(chunk as usize)?;
        Some(drawn.class)
    }
}

/// Lets go parts of which nothing was lent, as those that come back from [`crate::Floor::over`]. Each ends as it is.
pub fn end_parts<'r>(parts: Vec<Part<'r>>, endings: &mut Endings<'r>)
    ensures { endings.new ≡ record endings.old { known = map ended_part parts.entry.items ++ endings.old.known } }
{
    let mut parts = parts;
    while let Some(part) = parts.pop() {
        endings.close(part.into_front());
    }
}
