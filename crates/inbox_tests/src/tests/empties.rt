//! Empty magazines go back to those who send.
use super::{batch_of, open};
use inbox_uses::{Supply, has_room, region, room};
use std::alloc::Global;
use std::process::Abort;
use std::sync::Wait;

// Two that are left come back in their order, and then none with room.
fn go_back<'r, R: Abort + Wait>(rt: &R, alloc: Global, mut supply: Supply<'r>) {
    let (inbox, _take, _seats) = open(rt, alloc, 1);
    for number in 0..2 {
        let batch = batch_of(rt, alloc, &mut supply, 0, number);
        inbox.return_empty(rt, room(alloc, batch));
    }
    for number in 2..5 {
        let batch = batch_of(rt, alloc, &mut supply, 0, number);
        assert!(rt; has_room(inbox.reclaim_empty(rt), batch) == (number < 4));
    }
}

#[test]
fn empty_magazines_come_back(rt: HostRuntime) {
    let mut region = region(rt.alloc(), 1).expect(&rt, "memory");
    let supply = Supply::new(rt.alloc(), &mut region).expect(&rt, "chunks");
    go_back(&rt, rt.alloc(), supply);
}
