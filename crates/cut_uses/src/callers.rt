//! Callers that hold parts, cursors and slots of a region.
ghost use Rattle.std.specs.Prelude.{◌≡◌, OnOk, length, replicate};
ghost use Rattle.region_cut.specs.Bumps.{left_of};

use region_cut::{Bump, Class, CutError, Part, Piece, cut};
use std::alloc::Global;

/// Takes the slots that a cursor has left, one by one, and counts them.
pub fn count(bump: &mut Bump) -> usize
    ensures count { result ≡ left_of bump.old }
    ensures none_left { left_of bump.new ≡ 0 }
{
    let mut count = 0;
    while let Some(_piece) = bump.next() {
        count += 1;
    }
    count
}

/// Lends a slot of a region, and clears the region once its parts, cursors and slots are gone.
pub fn cleared(alloc: Global, region: &mut [u8]) -> Result<(), CutError>
    ensures { OnOk result (region.new ≡ replicate (length region.old) 0) }
{
    let mut parts = cut(alloc, region)?;
    let part = parts.pop();
    drop(parts);
    if let Some(part) = part {
        let mut bump = part.bump(Class::FIRST);
        let piece = bump.next();
        drop(bump);
        drop(piece);
    }
    region.fill(0);
    Ok(())
}

fn sent<T: Send>(_value: &T) {}

/// A part, a cursor and a slot may each be handed to another thread.
pub fn may_cross_threads(part: &Part, bump: &Bump, piece: &Piece) {
    sent(part);
    sent(bump);
    sent(piece);
}
