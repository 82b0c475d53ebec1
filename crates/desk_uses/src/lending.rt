//! One desk over a region, used by hand.
ghost use Rattle.std.specs.Prelude.{◌≡◌, IfSome};
ghost use Rattle.pool_desk.specs.declared.freed.Freed.TheVariants.{Home};

use digit_route::Digits;
use pool_desk::{DeskError, Freed, IdleDesk};
use region_cut::cut;
use std::alloc::Global;

/// Cuts a region, and lends a buffer of a desk over it, which claims a chunk for it. A byte is
/// written, and the buffer is freed: it goes home. `None` where the region has no chunk or too many,
/// or memory is refused.
pub fn lend_by_hand(alloc: Global, region: &mut [u8]) -> Option<Freed>
    ensures { IfSome result (λ freed. freed ≡ Home) }
{
    let mut parts = cut(alloc, region).ok()?.into_iter();
    let digits = Digits::new(2)?;
    let mut desk = IdleDesk::new(0, digits, 4096).adopt(7);

    let class = digits.profile().class_for(100)?; // slots of 112 bytes
    let mut buf = match desk.alloc(alloc, 100) {
        Ok(buf) => buf,
        Err(DeskError::NeedChunk(_)) => {
            let part = parts.next()?;
            let Ok(()) = desk.claim(part, class) else {
                return None;
            };
            let Ok(buf) = desk.alloc(alloc, 100) else {
                return None;
            };
            buf
        }
        Err(_) => return None,
    };
    buf.bytes_mut()[0] = 1;
    Some(desk.free(buf)) // spends the buffer: to free it again does not compile
}
