//! A station that is dropped is missing at the end. The other desks are found: those whose stations are
//! handed in, and those on the shelf, of which no clause speaks.

ghost use Rattle.std.specs.Prelude.{◌≤◌};

use crate::without_one;
use digit_route::Digits;
use pool_fabric::{GatherError, Opening};
use region_cut::{CHUNK, cut};
use std::sync::Wait;
use std::test::Fail;

// Whether the desk of this number is told as missing, and the others are found, at so many desks.
fn is_missing<R: AllocGlobal + Wait>(rt: &R, desks: u16, missing: u16) -> Result<bool, Fail>
    requires { (1 ≤ desks) × (desks ≤ 64) }
{
    let alloc = rt.alloc();
    let mut region = Vec::from_elem(alloc, 0u8, CHUNK)?;
    let parts = cut(alloc, region.as_mut_slice())?;
    let digits = Digits::new(2).ok_or("two bits")?;
    let opening = Opening::new(alloc, parts, desks, digits, 4_096)?;
    match without_one(rt, alloc, opening, missing) {
        Err(GatherError::Missing(found)) => {
            let others = usize::from(desks) - 1;
            Ok(found.missing == usize::from(missing) && found.desks.len() == others)
        }
        _ => Ok(false),
    }
}

#[test]
fn a_dropped_station_is_missing(rt: HostRuntime) -> Result<(), Fail> {
    assert!(rt; is_missing(&rt, 1, 0)?);
    assert!(rt; is_missing(&rt, 2, 1)?);
    assert!(rt; is_missing(&rt, 64, 17)?);
    // one that there isn't is not missing
    assert!(rt; !is_missing(&rt, 64, 64)?);
    Ok(())
}
