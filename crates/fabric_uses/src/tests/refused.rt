//! A refused batch stays in its cache, and is posted the next time.

ghost use Rattle.std.specs.Prelude.{◌≤◌};

use crate::{Refusing, Resent, post_twice};
use batch_inbox::{SendSeat, TakeSeat};
use digit_route::Digits;
use pool_fabric::{Opening, account};
use region_cut::{CHUNK, cut};
use std::process::Abort;
use std::sync::Wait;
use std::test::Fail;

// The batches of the first try and of the second, at so many desks, whose numbers are read in digits
// of so many bits.
fn tries<R: Abort + AllocGlobal + Wait>(rt: &R, desks: u16, width: u32) -> Result<(u32, u32), Fail>
    requires { (1 ≤ desks) × (desks ≤ 64) }
{
    let alloc = rt.alloc();
    let mut region = Vec::from_elem(alloc, 0u8, 6 * CHUNK)?;
    let parts = cut(alloc, region.as_mut_slice())?;
    let digits = Digits::new(width).ok_or("a width")?;
    let opening = Opening::<Refusing<'_>, TakeSeat<'_>, SendSeat<'_>>::new(
        alloc, parts, desks, digits, 4_096,
    )?;
    let Resent {
        first,
        second,
        found,
    } = post_twice(rt, alloc, opening)
        .ok()
        .ok_or("all that there is")?;
    let audit = account(alloc, &[], &found.desks, &found.batches, &found.drawn);
    assert!(rt; audit.is_ok());
    assert!(rt; found.batches.is_empty());
    Ok((first, second))
}

// The k-th batch is refused where the poster has k destinations.
#[test]
fn the_last_batch_is_posted_again(rt: HostRuntime) -> Result<(), Fail> {
    for k in 1..6u16 {
        let (first, second) = tries(&rt, k + 1, 6)?;
        assert_eq!(rt; first, u32::from(k - 1));
        assert_eq!(rt; second, 1);
    }
    Ok(())
}

// In digits of one bit the last desk's buffer goes in a round after the first: of three desks behind a
// batch for 1, of five behind one for 1 and 3, and one for 2.
#[test]
fn a_batch_of_a_later_round_is_posted_again(rt: HostRuntime) -> Result<(), Fail> {
    assert_eq!(rt; tries(&rt, 3, 1)?, (1, 1));
    assert_eq!(rt; tries(&rt, 5, 1)?, (2, 1));
    Ok(())
}
