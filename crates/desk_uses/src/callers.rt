//! What a caller of a desk learns.
ghost use Rattle.std.specs.Prelude.{◌≡◌, ◌<◌, All, Any, IfErr, IfOk, OnOk, length, replicate};
ghost use Rattle.desk_uses.specs.Filled.{IsFilled};
ghost use Rattle.digit_route.specs.Digits.{count};
ghost use Rattle.slot_chain.specs.Buffer.{Buffer};
ghost use Rattle.pool_desk.specs.Steps.{AllocFault};
ghost use Rattle.pool_desk.specs.declared.freed.Freed.TheVariants.{Home};
ghost use Rattle.region_cut.specs.Classes.{size_of};

use digit_route::laws::shared_by_others;
use pool_desk::{Desk, DeskError, Freed};
use slot_chain::Buf;
use std::alloc::Global;

/// What a desk gave goes home when it is freed there, so that as many slots are at home as before.
pub fn lend_and_take_back(
    alloc: Global,
    desk: &mut Desk<'_>,
    size: usize,
) -> Result<Freed, DeskError>
    ensures freed { IfOk result (λ freed. freed ≡ Home) }
    ensures home { OnOk result (length desk.new.home ≡ length desk.old.home) }
    ensures cached { OnOk result (desk.new.cached ≡ desk.old.cached) }
    ensures refused { IfErr result (λ e. AllocFault desk.old size e × (desk.new ≡ desk.old)) }
{
    let _number = desk.number();
    let buf = desk.alloc(alloc, size)?;
    Ok(desk.free(buf))
}

/// The desk's number. No buffer in its cache was passed on as often as a number has digits.
pub fn cached_were_passed_on_few_times(desk: &Desk<'_>) -> u16
    ensures number { result ≡ desk.now.number }
    ensures few { All (λ (b : Buffer). b.forwards < count desk.now.digits) desk.now.cached }
{
    shared_by_others();
    desk.number()
}

// Sets each byte, as many as the class has.
pub(crate) fn fill(buf: &mut Buf<'_>, byte: u8)
    ensures size { length buf.old.bytes.now ≡ size_of buf.old.class }
    ensures filled { buf.new ≡ record buf.old {
      bytes = record buf.old.bytes { now = replicate (size_of buf.old.class) byte };
    } }
{
    buf.bytes_mut().fill(byte);
}

/// A buffer is written, and goes home with what was written.
pub fn written(alloc: Global, desk: &mut Desk<'_>, byte: u8) -> Result<Freed, DeskError>
    ensures { OnOk result (Any (IsFilled byte) desk.new.home) }
{
    let _number = desk.number();
    let mut buf = desk.alloc(alloc, 16)?;
    fill(&mut buf, byte);
    Ok(desk.free(buf))
}
