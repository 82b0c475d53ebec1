//! The words and numbers of refusals, what is printed of parts and slots, and slots as keys.
use region_cut::{Class, CutError, Slot, cut};
use std::alloc::{AllocError, Global};
use std::collections::HashMap;
use std::process::Abort;

// It has this number, and this text, also where memory for that is refused once.
fn is_said(rt: &impl Abort, alloc: Global, error: CutError, number: u32, text: &str) {
    assert_eq!(rt; error.number(), number);
    let said = match format!(in alloc; "{error}") {
        Ok(said) => said,
        Err(_) => format!(in alloc; "{error}").expect(rt, "memory is there again"),
    };
    assert!(rt; said.as_str() == text, "{text}");
}

#[test]
fn refusals_have_numbers_and_texts(rt: HostRuntime) {
    let alloc = rt.alloc();
    is_said(
        &rt,
        alloc,
        CutError::TooMany,
        1,
        "the region has more than 1024 chunks",
    );
    is_said(&rt, alloc, CutError::NoMemory, 2, "no memory");
}

// What is printed of the second part of a region, a cursor over it and its first slot.
fn print_all(rt: &impl Abort, alloc: Global) -> Result<(), AllocError> {
    let mut region = [0u8; 8192];
    let Ok(mut parts) = cut(alloc, &mut region) else {
        return Err(AllocError);
    };
    let part = parts.pop().expect(rt, "a part");
    assert_eq!(rt; format!(in alloc; "{part:?}")?.as_str(), "Part(1)");
    let mut bump = part.bump(Class::FIRST);
    let piece = bump.next().expect(rt, "a slot");
    assert_eq!(rt; format!(in alloc; "{piece:?}")?.as_str(), "Piece(1.0)");
    assert_eq!(rt;
        format!(in alloc; "{bump:?}")?.as_str(),
        "Bump(1.1 of class 0)"
    );
    Ok(())
}

#[test]
fn parts_cursors_and_slots_are_printed_without_bytes(rt: HostRuntime) {
    if print_all(&rt, rt.alloc()).is_err() {
        assert!(rt; print_all(&rt, rt.alloc()).is_ok());
    }
}

fn put(classes: &mut HashMap<Slot, u32>, slot: Slot, class: u32) -> Result<(), AllocError> {
    match classes.insert(slot, class) {
        Ok(_) => Ok(()),
        Err(_) => Err(AllocError),
    }
}

// A map by slots finds the class of each.
fn find_all(rt: &impl Abort, alloc: Global) -> Result<(), AllocError> {
    let mut classes = HashMap::new(alloc);
    put(&mut classes, Slot { chunk: 1, index: 2 }, 3)?;
    put(&mut classes, Slot { chunk: 2, index: 1 }, 4)?;
    assert_eq!(rt; classes.get(&Slot { chunk: 1, index: 2 }).copied(), Some(3));
    assert_eq!(rt; classes.get(&Slot { chunk: 2, index: 1 }).copied(), Some(4));
    assert_eq!(rt; classes.get(&Slot { chunk: 1, index: 1 }).copied(), None);
    Ok(())
}

#[test]
fn a_slot_is_a_key(rt: HostRuntime) {
    if find_all(&rt, rt.alloc()).is_err() {
        assert!(rt; find_all(&rt, rt.alloc()).is_ok());
    }
}
