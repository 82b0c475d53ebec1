//! What is found where the station of a desk didn't come back.
ghost use Rattle.std.specs.Prelude.{◌≡◌, IfOk};
ghost use Rattle.pool_fabric.specs.Gathered.{AddsEach};

use crate::gathered::Gathered;
use crate::held::HeldStation;
use crate::naming::Naming;
use batch_inbox::{Receiver, Sender};
use pool_desk::Desk;
use slot_balance::CountedNotes;
use slot_chain::Buf;
use std::alloc::AllocError;
use std::fmt;

/// What there is of a pool where the station of a desk didn't come back: all that the other desks hold.
/// What was under way in an inbox is dropped, since an inbox ends only with all its seats.
#[derive(Drop)]
pub struct FoundInPart<'r> {
    /// The least number of a desk whose station didn't come back.
    pub missing: usize,
    /// The desks whose stations came back, in no order, each with its slots at home and in its cache.
    pub desks: Vec<Desk<'r>>,
    /// What these desks lent. A program sees how many buffers that are, contracts see each.
    pub lent: CountedNotes<Buf<'r>>,
    /// What was freed to these desks, seen so too.
    pub freed: CountedNotes<Buf<'r>>,
}

/// All desks that were gathered, and those of the stations that are left.
pub(crate) fn in_part<'r, T: Receiver, S: Sender, J: Naming>(
    missing: usize,
    gathered: Gathered<'r, T, S, J>,
    stations: Vec<HeldStation<'r, T, S, J>>,
) -> Result<FoundInPart<'r>, AllocError>
    ensures missing { IfOk result (λ f. f.missing ≡ missing) }
    ensures found { IfOk result (λ f.
        AddsEach stations.entry.items gathered.entry f.desks.items f.lent f.freed) }
{
    let Gathered {
        columns: _,
        mut desks,
        takes: _,
        rows: _,
        page: _,
        mut lent,
        mut freed,
        batches: _,
        of: _,
    } = gathered;
    let mut stations = stations;
    while let Some(station) = stations.pop() {
        let HeldStation {
            desk,
            take: _,
            seats: _,
            page: _,
            lent: more_lent,
            freed: more_freed,
            of: _,
        } = station;
        desks.push(Box::into_inner(desk).into_inner())?;
        lent = lent.with(&more_lent);
        freed = freed.with(&more_freed);
    }
    Ok(FoundInPart {
        missing,
        desks,
        lent,
        freed,
    })
}

// The buffers are not printed.
impl fmt::Debug for FoundInPart<'_> {
    fn fmt<W: fmt::Write>(&self, f: &mut fmt::Formatter<W>) -> fmt::Result {
        write!(
            f,
            "FoundInPart({} desks, without that of {})",
            self.desks.len(),
            self.missing
        )
    }
}
