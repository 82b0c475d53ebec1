//! Want of memory.
use slot_chain::{BufParcel, NoMemory, Room};
use std::alloc::AllocError;

// The words, also where memory for them is refused once.
#[test]
fn is_said_in_words(rt: HostRuntime) {
    let alloc = rt.alloc();
    let text = match format!(in alloc; "{}", NoMemory) {
        Ok(text) => text,
        Err(_) => format!(in alloc; "{}", NoMemory).expect(&rt, "memory is there again"),
    };
    assert_eq!(rt; text.as_str(), "no memory");
    assert_eq!(rt; NoMemory::from(AllocError), NoMemory);
}

// A room is made, or refused and nothing else, and then the next is made.
#[test]
fn is_all_that_a_room_can_lack(rt: HostRuntime) {
    if let Err(refused) = Room::new(rt.alloc()) {
        assert_eq!(rt; refused, NoMemory);
        assert!(rt; Room::new(rt.alloc()).is_ok());
    }
}

// A parcel is made, or refused and nothing else, and then the next is made. One that no machine has the memory for is
// refused.
#[test]
fn is_all_that_a_parcel_can_lack(rt: HostRuntime) {
    if let Err(refused) = BufParcel::new(rt.alloc(), 7, 100) {
        assert_eq!(rt; refused, NoMemory);
        assert!(rt; BufParcel::new(rt.alloc(), 7, 100).is_ok());
    }
    assert!(rt; BufParcel::new(rt.alloc(), 7, usize::MAX).err() == Some(NoMemory));
}
