//! A station goes back on the shelf.
use crate::enter_again;
use crate::tests::opening_over;
use region_cut::CHUNK;
use std::test::Fail;

// Three workers at one desk, one after the other: each puts back what the next one takes.
#[test]
fn one_desk_is_enough(rt: HostRuntime) -> Result<(), Fail> {
    let alloc = rt.alloc();
    let mut region = Vec::from_elem(alloc, 0u8, CHUNK)?;
    let opening = opening_over(alloc, &mut region, 1, 4_096)?;
    assert_eq!(rt; enter_again(&rt, alloc, opening, 3)?, 3);
    Ok(())
}
