//! A desk whose worker has left serves another one.
use crate::tests::opening_over;
use crate::{Answers, TakenUp, take_up_desk};
use pool_jobs::PoolError;
use region_cut::CHUNK;
use std::sync::Wait;
use std::test::Fail;

// What the second worker was answered, over a region of one chunk, where nothing is missing.
fn answers<R: AllocGlobal + Wait>(rt: &R) -> Result<Answers, Fail> {
    let alloc = rt.alloc();
    let mut region = Vec::from_elem(alloc, 0u8, CHUNK)?;
    let opening = opening_over(alloc, &mut region, 2, 4_096)?;
    let TakenUp { answers, report } = take_up_desk(rt, alloc, opening)?;
    report.tally.audit.ok().ok_or("an audit")?;
    Ok(answers)
}

#[test]
fn a_desk_is_taken_up(rt: HostRuntime) -> Result<(), Fail> {
    let answers = answers(&rt)?;
    assert_eq!(rt; answers.own, Err(PoolError::NoChunk));
    assert_eq!(rt; answers.taken_up, Ok(()));
    Ok(())
}
