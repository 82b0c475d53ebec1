//! The numbers of all refusals, and what they read.
use batch_inbox::PostError;
use std::alloc::{AllocError, Global};
use std::test::Fail;

// After a want of memory the next try works.
fn text_of(alloc: Global, error: PostError) -> Result<String, AllocError> {
    match format!(in alloc; "{error}") {
        Ok(text) => Ok(text),
        Err(_) => format!(in alloc; "{error}"),
    }
}

#[test]
fn refusals_have_numbers_and_texts(rt: HostRuntime) -> Result<(), Fail> {
    for (error, number, text) in [
        (PostError::NoRoom, 1, "no room"),
        (PostError::NoNode, 2, "no node"),
    ] {
        assert_eq!(rt; error.number(), number);
        assert_eq!(rt; text_of(rt.alloc(), error)?.as_str(), text);
    }
    Ok(())
}
