//! What comes at the limits of a region and of a list of tasks.

use super::{Act, Outcome, outcome_of};
use fustrevol::{CHUNK, CutError, MAX_CHUNKS, Pool, PoolError};
use std::test::Fail;

#[test]
fn one_chunk_too_many(rt: HostRuntime) -> Result<(), Fail> {
    let mut region = vec![in rt.alloc(); 0u8; (MAX_CHUNKS + 1) * CHUNK]?;
    match Pool::new(rt.alloc(), &mut region[CHUNK..]) {
        Ok(_pool) => {}
        Err(_) => return Err("1,024 chunks are taken".into()),
    }
    match Pool::new(rt.alloc(), &mut region) {
        Ok(_pool) => Err("1,025 chunks aren't".into()),
        Err(why) => {
            assert!(&rt; why == CutError::TooMany);
            Ok(())
        }
    }
}

// A byte is missing at a whole chunk.
#[test]
fn no_chunk_at_all(rt: HostRuntime) -> Result<(), Fail> {
    let mut region = vec![in rt.alloc(); 0u8; CHUNK - 1]?;
    let pool = Pool::new(rt.alloc(), &mut region)?;
    let Outcome { answers, tally } = outcome_of(&rt, pool, vec![in rt.alloc(); Act::Asks]?)?;
    assert!(&rt; answers.as_slice() == [Some(Err(PoolError::NoChunk))].as_slice());
    assert!(&rt; tally.counts.allocated == 0 && tally.counts.starved == 1 && tally.audit.is_ok());
    Ok(())
}

#[test]
fn no_task_at_all(rt: HostRuntime) -> Result<(), Fail> {
    let mut region = vec![in rt.alloc(); 0u8; CHUNK]?;
    let pool = Pool::new(rt.alloc(), &mut region)?;
    let Outcome { answers, tally } = outcome_of(&rt, pool, Vec::new(rt.alloc()))?;
    assert!(&rt; answers.is_empty() && tally.counts.allocated == 0 && tally.audit.is_ok());
    Ok(())
}

// Each of the others has a chunk.
#[test]
fn the_65th_task_has_no_answer(rt: HostRuntime) -> Result<(), Fail> {
    let mut region = vec![in rt.alloc(); 0u8; 64 * CHUNK]?;
    let pool = Pool::new(rt.alloc(), &mut region)?;
    let mut tasks = Vec::new(rt.alloc());
    for _ in 0..65 {
        tasks.push(Act::Asks)?;
    }
    let Outcome { answers, tally } = outcome_of(&rt, pool, tasks)?;
    let mut answered = 0u32;
    for answer in answers.as_slice() {
        answered = answered.saturating_add(u32::from(*answer == Some(Ok(512))));
    }
    assert!(&rt; answered == 64 && answers.len() == 65);
    assert!(&rt; answers.as_slice().last() == Some(&None));
    assert!(&rt; tally.counts.freed == 64 && tally.audit.is_ok());
    Ok(())
}
