//! Empty magazines for whoever tries an inbox.
use digit_route::Batch;
use slot_chain::{EmptyMagazine, Magazine, Portion};
use std::alloc::Global;

/// What is left of a list of a batch's buffers: room for 16 of them. A refused allocation is tried once
/// more.
pub fn room<'r>(alloc: Global, batch: Batch<'r>) -> EmptyMagazine<'r> {
    let mut list = linked(batch);
    drop(list.take());
    list.make_room(alloc);
    list.make_room(alloc);
    list.into_empty()
}

/// Whether an empty magazine has room for a buffer of this batch.
pub fn has_room<'r>(empty: EmptyMagazine<'r>, batch: Batch<'r>) -> bool {
    let mut list = linked(batch);
    let mut sent = list.take();
    list.reuse(empty);
    if let Some(buf) = sent.pop() {
        list.push(buf);
    }
    match list.pop_portion() {
        Some(Portion::Array(_)) => true,
        _ => false,
    }
}

// The buffers of a batch in a list that has no array.
fn linked<'r>(batch: Batch<'r>) -> Magazine<'r> {
    let mut list = Magazine::new();
    let mut buffers = batch.into_magazine();
    while let Some(buf) = buffers.pop() {
        list.push(buf);
    }
    list
}
