//! The numbers of why nothing is gathered, and what they read.
use pool_fabric::{CountedNotes, FoundInPart, GatherError};
use std::alloc::{AllocError, Global};
use std::test::Fail;

// After a want of memory the next try works.
fn text_of(alloc: Global, error: &GatherError<'_>) -> Result<String, AllocError> {
    match format!(in alloc; "{error}") {
        Ok(text) => Ok(text),
        Err(_) => format!(in alloc; "{error}"),
    }
}

// Of notes a program sees the length alone.
#[test]
fn notes_are_counted(rt: HostRuntime) -> Result<(), Fail> {
    let none = CountedNotes::new();
    assert_eq!(rt; none.count(), 0);
    let one = none.and(&7u8);
    assert_eq!(rt; one.count(), 1);
    assert_eq!(rt; one.and_all(&[]).count(), 1);
    let four = one.and_all(&[1, 2, 3]);
    assert_eq!(rt; four.count(), 4);
    assert_eq!(rt; four.with(&one).count(), 5);
    assert_eq!(rt; none.with(&none).count(), 0);
    Ok(())
}

#[test]
fn gather_errors_have_numbers_and_texts(rt: HostRuntime) -> Result<(), Fail> {
    let alloc = rt.alloc();
    let missing = GatherError::Missing(FoundInPart {
        missing: 17,
        desks: Vec::new(alloc),
        lent: CountedNotes::new(),
        freed: CountedNotes::new(),
    });
    assert_eq!(rt; GatherError::NoMemory.number(), 1);
    assert_eq!(rt; missing.number(), 2);
    assert_eq!(rt;
        text_of(alloc, &GatherError::NoMemory)?.as_str(),
        "no memory"
    );
    assert_eq!(rt;
        text_of(alloc, &missing)?.as_str(),
        "the station of desk 17 is missing"
    );
    Ok(())
}
