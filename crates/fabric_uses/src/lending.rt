//! A buffer of one station, and its way to another.
use batch_inbox::{Mail, Receiver, Sender};
use pool_desk::DeskError;
use pool_fabric::{Buffer, Fabric, HeldStation, Naming};
use std::alloc::Global;
use std::sync::Wait;

/// A buffer of the station, which claims a chunk where none of the class is at home. There is none
/// where no class is large enough, the stock is empty, or memory is refused.
pub fn lend<
    'r,
    T: Receiver,
    S: Sender,
    M: Mail<'r, TakeSeat = T, SendSeat = S>,
    J: Naming,
    R: Wait,
>(
    rt: &R,
    alloc: Global,
    fabric: &Fabric<'r, M, T, S, J>,
    station: &mut HeldStation<'r, T, S, J>,
    size: usize,
) -> Option<Buffer<'r, J>> {
    let class = station.digits().profile().class_for(size)?;
    match station.alloc(alloc, size) {
        Ok(buffer) => Some(buffer),
        Err(DeskError::NeedChunk(_)) => {
            if !station.claim(rt, fabric, class) {
                return None;
            }
            match station.alloc(alloc, size) {
                Ok(buffer) => Some(buffer),
                Err(_) => None,
            }
        }
        Err(_) => None,
    }
}

/// A buffer of one station is freed to another. Says whether there was one.
pub fn lend_across<
    'r,
    T: Receiver,
    S: Sender,
    M: Mail<'r, TakeSeat = T, SendSeat = S>,
    J: Naming,
    R: Wait,
>(
    rt: &R,
    alloc: Global,
    fabric: &Fabric<'r, M, T, S, J>,
    from: &mut HeldStation<'r, T, S, J>,
    to: &mut HeldStation<'r, T, S, J>,
    size: usize,
) -> bool {
    let Some(buffer) = lend(rt, alloc, fabric, from, size) else {
        return false;
    };
    let _freed = to.free(buffer);
    true
}
