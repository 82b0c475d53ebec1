//! What a task in another thread answers.
use crate::ask_there;
use crate::tests::opening_over;
use pool_jobs::PoolError;
use region_cut::CHUNK;
use std::sync::Wait;
use std::test::Fail;
use std::thread::Threads;
use std::time::Clock;

// How many bytes a buffer has that a task asked for.
fn bytes_of<R: AllocGlobal + Threads + Wait + Clock + Sync>(
    rt: &R,
    size: usize,
) -> Result<Option<Result<usize, PoolError>>, Fail> {
    let alloc = rt.alloc();
    let mut region = Vec::from_elem(alloc, 0u8, CHUNK)?;
    let opening = opening_over(alloc, &mut region, 1, 4_096)?;
    Ok(ask_there(rt, alloc, opening, size)?)
}

// The classes are 16, 32, .. and 512 bytes.
#[test]
fn the_class_of_a_size(rt: HostRuntime) -> Result<(), Fail> {
    assert_eq!(rt; bytes_of(&rt, 1)?, Some(Ok(16)));
    assert_eq!(rt; bytes_of(&rt, 100)?, Some(Ok(112)));
    assert_eq!(rt; bytes_of(&rt, 512)?, Some(Ok(512)));
    Ok(())
}

#[test]
fn too_large_a_size(rt: HostRuntime) -> Result<(), Fail> {
    assert_eq!(rt; bytes_of(&rt, 513)?, Some(Err(PoolError::TooLarge)));
    Ok(())
}
