//! Readers and writers that fail.
use super::checks::{has_left_at, none_behind};
use super::replays::replay_over;
use super::travel::{REPORT, TRACE, replies_to};
use crate::memory::{Kept, Pieces, WriteFault};
use std::process::Abort;
use trace_audit::{End, ReplayError};

/// A replay in pieces of at most this size has the whole report.
fn goes_in_pieces(rt: &(impl Abort + AllocGlobal), size: usize) {
    let writer = Kept::new(rt.alloc(), size, 0, WriteFault::Error);
    let left = replay_over(rt.alloc(), Pieces::new(TRACE, size, 0), writer);
    has_left_at(rt, size, &left, Ok((End::Whole, None)), REPORT);
}

#[test]
fn pieces_of_each_size(rt: HostRuntime) {
    for size in 1..65usize {
        goes_in_pieces(&rt, size);
    }
}

/// A byte a read: where read `turn` fails, these bytes were given, and nothing more is read.
fn read_fails(rt: &(impl Abort + AllocGlobal), turn: usize, given: &[u8]) {
    let reader = Pieces::new(TRACE, 1, turn as u64);
    let left = replay_over(rt.alloc(), reader, Kept::all(rt.alloc()));
    has_left_at(rt, turn, &left, Err(ReplayError::Read), replies_to(given));
    none_behind(rt, turn, left.reads);
}

#[test]
fn a_read_fails(rt: HostRuntime) {
    for turn in 1..TRACE.len() + 2 {
        read_fails(&rt, turn, &TRACE[..turn - 1]);
    }
}

/// The third line of the trace is bad. This is known with the read number `known`, and nothing is read behind it.
fn is_known_at(rt: &(impl Abort + AllocGlobal), trace: &[u8], known: usize) {
    let left = replay_over(rt.alloc(), Pieces::new(trace, 1, 0), Kept::all(rt.alloc()));
    assert!(rt; left.answer == Ok((End::BadLine(3), None)));
    none_behind(rt, known, left.reads);
}

/// That read fails.
fn fails_at(rt: &(impl Abort + AllocGlobal), trace: &[u8], known: usize) {
    let reader = Pieces::new(trace, 1, known as u64);
    let left = replay_over(rt.alloc(), reader, Kept::all(rt.alloc()));
    has_left_at(rt, known, &left, Err(ReplayError::Read), b"ok\n");
}

/// A bad line is known with its line feed or with its 65th byte.
#[test]
fn nothing_is_read_behind_a_bad_line(rt: HostRuntime) {
    let bad: [(&[u8], usize); 3] = [
        (b"pool 1 1 2\nadopt 0 0\nexpire 0\nadopt 0 0\n", 30),
        (
            b"pool 1 1 2\nadopt 0 0\naaaaaaaaaaaaaaaaaaaaaaaaaaaaaaaaaaaaaaaaaaaaaaaaaaaaaaaaaaaaaaaaaaaaaa\n",
            86,
        ),
        (b"pool 1 1 2\nadopt 0 0\nadopt 0 0", 31),
    ];
    for (trace, known) in bad {
        is_known_at(&rt, trace, known);
        fails_at(&rt, trace, known);
    }
}

/// A byte a write: where write `turn` fails, these bytes were taken, and no further write is made.
fn write_fails(rt: &(impl Abort + AllocGlobal), turn: usize, fault: WriteFault, taken: &[u8]) {
    let writer = Kept::new(rt.alloc(), 1, turn as u64, fault);
    let left = replay_over(rt.alloc(), Pieces::new(TRACE, 64, 0), writer);
    has_left_at(rt, turn, &left, Err(ReplayError::Write), taken);
    none_behind(rt, turn, left.written.writes);
}

fn fails_at_each_write(rt: &(impl Abort + AllocGlobal), fault: WriteFault) {
    for turn in 1..REPORT.len() + 1 {
        write_fails(rt, turn, fault, &REPORT[..turn - 1]);
    }
}

#[test]
fn a_write_fails(rt: HostRuntime) {
    fails_at_each_write(&rt, WriteFault::Error);
}

#[test]
fn a_write_takes_nothing(rt: HostRuntime) {
    fails_at_each_write(&rt, WriteFault::TakesNothing);
}

/// The one line of a bad header can't be written.
fn header_fails(rt: &(impl Abort + AllocGlobal), turn: usize) {
    let writer = Kept::new(rt.alloc(), 1, turn as u64, WriteFault::Error);
    let left = replay_over(rt.alloc(), Pieces::new(b"pool 0 0 0\n", 64, 0), writer);
    assert!(rt; left.answer == Err(ReplayError::Write));
    none_behind(rt, turn, left.written.writes);
}

#[test]
fn a_write_fails_behind_a_bad_header(rt: HostRuntime) {
    for turn in 1..15usize {
        header_fails(&rt, turn);
    }
}
