//! What an audit answers, and the line that tells it.
use crate::memory::Kept;
use region_cut::{Class, Slot};
use std::alloc::Global;
use std::process::Abort;
use std::test::Fail;
use trace_audit::{Drawn, Failed, Fault, ReplayError, audit, write_audit};

/// No chunk is drawn. Where the box of the table is refused, it is asked for again.
fn none_drawn(rt: &(impl Abort + AllocGlobal)) -> Drawn {
    match Drawn::new(rt.alloc()) {
        Ok(drawn) => drawn,
        Err(_) => Drawn::new(rt.alloc()).ok().expect(rt, "memory for a table"),
    }
}

/// Chunk 0 is drawn for the class of 512 bytes, 8 slots, and no other.
fn one_chunk(rt: &(impl Abort + AllocGlobal)) -> Drawn {
    let mut drawn = none_drawn(rt);
    let Some(class) = Class::new(15) else {
        panic!(rt; "there is a class 15")
    };
    drawn.note(0, class);
    drawn
}

fn slot(chunk: u16, index: u16) -> Slot {
    Slot { chunk, index }
}

/// The audit's answer is the one wanted, also where its table is refused and it is asked again.
fn answers(
    rt: &(impl Abort + AllocGlobal),
    found: &[Slot],
    drawn: &Drawn,
    want: Result<(), Fault>,
) {
    let first = audit(rt.alloc(), found, drawn);
    let answer = if first == Err(Fault::NoMemory) {
        audit(rt.alloc(), found, drawn)
    } else {
        first
    };
    assert!(rt; answer == want, "{found:?}: {answer:?}");
}

#[test]
fn each_slot_once(rt: HostRuntime) {
    let found = [
        slot(0, 3),
        slot(0, 0),
        slot(0, 7),
        slot(0, 1),
        slot(0, 6),
        slot(0, 2),
        slot(0, 5),
        slot(0, 4),
    ];
    answers(&rt, &found, &one_chunk(&rt), Ok(()));
    answers(&rt, &[], &none_drawn(&rt), Ok(()));
}

#[test]
fn the_least_fault_is_named(rt: HostRuntime) {
    let drawn = one_chunk(&rt);
    let but_one = [
        slot(0, 1),
        slot(0, 2),
        slot(0, 3),
        slot(0, 4),
        slot(0, 5),
        slot(0, 6),
        slot(0, 7),
    ];
    answers(&rt, &but_one, &drawn, Err(Fault::Missing(slot(0, 0))));
    answers(&rt, &[], &drawn, Err(Fault::Missing(slot(0, 0))));
    let doubled = [slot(0, 0), slot(0, 0), slot(0, 3)];
    answers(&rt, &doubled, &drawn, Err(Fault::Doubled(slot(0, 0))));
    let strange = [slot(0, 0), slot(0, 0), slot(1, 0), slot(0, 8)];
    answers(&rt, &strange, &drawn, Err(Fault::Stranger(slot(0, 8))));
}

/// As many slots as there should be, of which one is there twice.
#[test]
fn the_number_is_not_enough(rt: HostRuntime) {
    let found = [
        slot(0, 7),
        slot(0, 6),
        slot(0, 5),
        slot(0, 4),
        slot(0, 3),
        slot(0, 2),
        slot(0, 0),
        slot(0, 0),
    ];
    answers(
        &rt,
        &found,
        &one_chunk(&rt),
        Err(Fault::Doubled(slot(0, 0))),
    );
}

/// Of the worked table: each class, and how many slots a chunk of it has.
const SLOTS: [u16; 20] = [
    256, 128, 85, 64, 51, 42, 36, 32, 25, 21, 18, 16, 12, 10, 9, 8, 6, 5, 4, 4,
];

/// Chunk `1000 + class` is drawn for each class.
fn all_classes(alloc: Global) -> Result<Drawn, Fail> {
    let mut drawn = Drawn::new(alloc)?;
    for number in 0..20u16 {
        if let Some(class) = Class::new(u32::from(number)) {
            drawn.note(number + 1000, class);
        }
    }
    Ok(drawn)
}

fn push_slots(found: &mut Vec<Slot>, chunk: u16, count: u16) -> Result<(), Fail> {
    for index in 0..count {
        found.push(slot(chunk, index))?;
    }
    Ok(())
}

/// The slots of those chunks.
fn all_slots(alloc: Global) -> Result<Vec<Slot>, Fail> {
    let mut found = Vec::new(alloc);
    for number in 0..20u16 {
        push_slots(&mut found, number + 1000, SLOTS[usize::from(number)])?;
    }
    Ok(found)
}

#[test]
fn a_chunk_of_each_class(rt: HostRuntime) -> Result<(), Fail> {
    let drawn = all_classes(rt.alloc())?;
    let mut found = all_slots(rt.alloc())?;
    answers(&rt, found.as_slice(), &drawn, Ok(()));
    found.push(slot(1019, 4))?;
    let stranger = Err(Fault::Stranger(slot(1019, 4)));
    answers(&rt, found.as_slice(), &drawn, stranger);
    let _ = found.pop();
    let _ = found.pop();
    let missing = Err(Fault::Missing(slot(1019, 3)));
    answers(&rt, found.as_slice(), &drawn, missing);
    Ok(())
}

/// All chunks of the largest region are drawn, each for the class with the most slots.
fn all_chunks(alloc: Global) -> Result<Drawn, Fail> {
    let mut drawn = Drawn::new(alloc)?;
    for chunk in 0..1024u16 {
        drawn.note(chunk, Class::FIRST);
    }
    Ok(drawn)
}

/// The 262,144 slots of those chunks.
fn slots_of_all_chunks(alloc: Global) -> Result<Vec<Slot>, Fail> {
    let mut found = Vec::new(alloc);
    for chunk in 0..1024u16 {
        push_slots(&mut found, chunk, 256)?;
    }
    Ok(found)
}

/// As many slots as a region may have.
#[test]
fn a_whole_region(rt: HostRuntime) -> Result<(), Fail> {
    let drawn = all_chunks(rt.alloc())?;
    let mut found = slots_of_all_chunks(rt.alloc())?;
    assert!(rt; found.len() == 262_144);
    assert!(rt; audit(rt.alloc(), found.as_slice(), &drawn) == Ok(()));
    let _ = found.pop();
    let missing = Err(Fault::Missing(slot(1023, 255)));
    assert!(rt; audit(rt.alloc(), found.as_slice(), &drawn) == missing);
    found.push(slot(512, 7))?;
    let doubled = Err(Fault::Doubled(slot(512, 7)));
    assert!(rt; audit(rt.alloc(), found.as_slice(), &drawn) == doubled);
    Ok(())
}

/// The line that tells this answer.
fn tells(rt: &(impl Abort + AllocGlobal), answer: Result<(), Fault>, line: &[u8]) {
    let mut writer = Kept::all(rt.alloc());
    assert!(rt; write_audit(answer, &mut writer) == Ok(()));
    assert!(rt; writer.bytes.as_slice() == line);
}

#[test]
fn the_line_of_an_audit(rt: HostRuntime) {
    let doubled = Fault::Doubled(slot(1023, 255));
    tells(&rt, Ok(()), b"audit yes\n");
    tells(
        &rt,
        Err(Fault::Stranger(slot(0, 8))),
        b"audit stranger 0.8\n",
    );
    tells(&rt, Err(doubled), b"audit doubled 1023.255\n");
    tells(&rt, Err(Fault::Missing(slot(0, 0))), b"audit missing 0.0\n");
    tells(&rt, Err(Fault::NoMemory), b"audit no memory\n");
}

/// The number and the text of this fault.
fn says(
    rt: &(impl Abort + AllocGlobal),
    fault: Fault,
    number: u32,
    text: &str,
) -> Result<(), Fail> {
    assert!(rt; fault.number() == number);
    assert!(rt; format!(in rt.alloc(); "{fault}")?.as_str() == text);
    Ok(())
}

#[test]
fn what_a_fault_says(rt: HostRuntime) -> Result<(), Fail> {
    says(&rt, Fault::Stranger(slot(0, 8)), 1, "stranger 0.8")?;
    says(&rt, Fault::Doubled(slot(1023, 255)), 2, "doubled 1023.255")?;
    says(&rt, Fault::Missing(slot(0, 0)), 3, "missing 0.0")?;
    says(&rt, Fault::NoMemory, 4, "no memory")
}

/// The number and the text of this error.
fn tells_error(
    rt: &(impl Abort + AllocGlobal),
    error: ReplayError,
    number: u32,
    text: &str,
) -> Result<(), Fail> {
    assert!(rt; error.number() == number);
    assert!(rt; format!(in rt.alloc(); "{error}")?.as_str() == text);
    Ok(())
}

#[test]
fn what_an_error_says(rt: HostRuntime) -> Result<(), Fail> {
    tells_error(&rt, ReplayError::Read, 1, "read failed")?;
    tells_error(&rt, ReplayError::Write, 2, "write failed")
}

/// What is said of a read or a write that failed, by whoever reads and writes.
#[test]
fn what_a_failure_says(rt: HostRuntime) -> Result<(), Fail> {
    assert!(rt; format!(in rt.alloc(); "{}", Failed)?.as_str() == "a read or a write failed");
    Ok(())
}
