//! The end of a floor's lists.
ghost use Rattle.std.specs.Prelude.{◌≡◌, ◌++◌, map, flat_map, IsPermutation};
ghost use Rattle.slot_chain.specs.Buffer.{ended_of};
ghost use Rattle.event_floor.specs.Chunks.{ended_parts};
ghost use Rattle.event_floor.specs.headline.EndsKnown.{buffers_with, buffers_of, undrawn_parts};
ghost use Rattle.event_floor.specs.headline.Names.{chunks_of};

use crate::any_desk::AnyDesk;
use crate::inboxes::end_inboxes;
use crate::lists::Lists;
use region_cut::endings::Endings;

// Lets go the buffers of all desks, and the cursors over their chunks.
fn end_desks<'r>(desks: Vec<AnyDesk<'r>>, endings: &mut Endings<'r>)
    ensures chunks { endings.new.chunks ≡ flat_map chunks_of desks.entry.items ++ endings.old.chunks }
    ensures known { IsPermutation (map ended_of (flat_map buffers_with desks.entry.items) ++ endings.old.known)
        endings.new.known }
{
    let mut desks = desks;
    while let Some(desk) = desks.pop() {
        desk.end(endings);
    }
}

impl<'r> Lists<'r> {
    /// Lets go all buffers, the cursors, and the parts that aren't drawn.
    pub(crate) fn end(self) -> Endings<'r>
        ensures chunks { result.chunks ≡ flat_map chunks_of self.entry.desks }
        ensures known { IsPermutation
            (map ended_of (buffers_of self.entry) ++ ended_parts (undrawn_parts self.entry) self.entry.undrawn)
            result.known }
    {
        let Lists {
            digits: _,
            limit: _,
            desks,
            chunks,
            lent,
            inboxes,
            next: _,
        } = self;
        let mut endings = Endings::new();
        chunks.end(&mut endings);
        end_inboxes(inboxes, &mut endings);
        lent.end(&mut endings);
        end_desks(desks, &mut endings);
        endings
    }
}
