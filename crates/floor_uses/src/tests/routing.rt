//! Which way batches go. Desks 0, 7, 11 and 27 are read in digits of 2 bits as 0,0,0, 3,1,0, 3,2,0 and 3,2,1, the least
//! digit first; in digits of 4 bits desks 17 and 33 are 1,1 and 1,2.
use super::{Answer, Closing, Row, closes, is_answer, on_floor, plays, pool, slot};
use crate::hand_out;
use event_floor::{Floor, Refusal, Reply, Request};
use std::alloc::Global;
use std::process::Abort;

/// Buffers of 7, 11 and 27 are freed at desk 0, and go home.
pub(super) const TRAVEL: [Row; 22] = [
    (Request::Adopt(0, 0), Ok(Reply::Done)),
    (Request::Adopt(7, 1), Ok(Reply::Done)),
    (Request::Adopt(11, 2), Ok(Reply::Done)),
    (Request::Adopt(27, 3), Ok(Reply::Done)),
    (Request::Claim(7, 15), Ok(Reply::Chunk(0))),
    (Request::Claim(11, 15), Ok(Reply::Chunk(1))),
    (Request::Claim(27, 15), Ok(Reply::Chunk(2))),
    (Request::Alloc(7, 512), slot!(0, 0)),
    (Request::Alloc(11, 512), slot!(1, 0)),
    (Request::Alloc(27, 512), slot!(2, 0)),
    (Request::Free(0, (0, 0)), Ok(Reply::Cached)),
    (Request::Free(0, (1, 0)), Ok(Reply::Cached)),
    (Request::Free(0, (2, 0)), Ok(Reply::Cached)),
    (Request::Send(0, 7), Ok(Reply::Batch(1, 3))),
    (Request::Link(1), Ok(Reply::Done)),
    (Request::Take(7), Ok(Reply::Counts(1, 2))),
    (Request::Send(7, 11), Ok(Reply::Batch(2, 2))),
    (Request::Link(2), Ok(Reply::Done)),
    (Request::Take(11), Ok(Reply::Counts(1, 1))),
    (Request::Send(11, 27), Ok(Reply::Batch(3, 1))),
    (Request::Link(3), Ok(Reply::Done)),
    (Request::Take(27), Ok(Reply::Counts(1, 0))),
];

/// The desks with slots after `TRAVEL`.
pub(super) const TRAVELLED: [Closing; 3] = [(7, 8, 0, 0), (11, 8, 0, 0), (27, 8, 0, 0)];

#[test]
fn a_buffer_is_passed_on_digit_by_digit(rt: HostRuntime) {
    plays(&rt, rt.alloc(), pool(64, 8, 2), &TRAVEL, &TRAVELLED, (3, 0));
}

#[test]
fn with_one_digit_nothing_is_passed_on(rt: HostRuntime) {
    const ROWS: [Row; 22] = [
        (Request::Adopt(0, 0), Ok(Reply::Done)),
        (Request::Adopt(7, 1), Ok(Reply::Done)),
        (Request::Adopt(11, 2), Ok(Reply::Done)),
        (Request::Adopt(27, 3), Ok(Reply::Done)),
        (Request::Claim(7, 15), Ok(Reply::Chunk(0))),
        (Request::Claim(11, 15), Ok(Reply::Chunk(1))),
        (Request::Claim(27, 15), Ok(Reply::Chunk(2))),
        (Request::Alloc(7, 512), slot!(0, 0)),
        (Request::Alloc(11, 512), slot!(1, 0)),
        (Request::Alloc(27, 512), slot!(2, 0)),
        (Request::Free(0, (0, 0)), Ok(Reply::Cached)),
        (Request::Free(0, (1, 0)), Ok(Reply::Cached)),
        (Request::Free(0, (2, 0)), Ok(Reply::Cached)),
        (Request::Send(0, 7), Ok(Reply::Batch(1, 1))),
        (Request::Link(1), Ok(Reply::Done)),
        (Request::Take(7), Ok(Reply::Counts(1, 0))),
        (Request::Send(0, 11), Ok(Reply::Batch(2, 1))),
        (Request::Link(2), Ok(Reply::Done)),
        (Request::Take(11), Ok(Reply::Counts(1, 0))),
        (Request::Send(0, 27), Ok(Reply::Batch(3, 1))),
        (Request::Link(3), Ok(Reply::Done)),
        (Request::Take(27), Ok(Reply::Counts(1, 0))),
    ];
    plays(&rt, rt.alloc(), pool(64, 8, 6), &ROWS, &TRAVELLED, (3, 0));
}

#[test]
fn two_digits_of_four_bits(rt: HostRuntime) {
    const ROWS: [Row; 15] = [
        (Request::Adopt(0, 0), Ok(Reply::Done)),
        (Request::Adopt(17, 1), Ok(Reply::Done)),
        (Request::Adopt(33, 2), Ok(Reply::Done)),
        (Request::Claim(17, 0), Ok(Reply::Chunk(0))),
        (Request::Claim(33, 0), Ok(Reply::Chunk(1))),
        (Request::Alloc(17, 1), slot!(0, 0)),
        (Request::Alloc(33, 1), slot!(1, 0)),
        (Request::Free(0, (0, 0)), Ok(Reply::Cached)),
        (Request::Free(0, (1, 0)), Ok(Reply::Cached)),
        (Request::Send(0, 17), Ok(Reply::Batch(1, 2))),
        (Request::Link(1), Ok(Reply::Done)),
        (Request::Take(17), Ok(Reply::Counts(1, 1))),
        (Request::Send(17, 33), Ok(Reply::Batch(2, 1))),
        (Request::Link(2), Ok(Reply::Done)),
        (Request::Take(33), Ok(Reply::Counts(1, 0))),
    ];
    let left = [(17, 256, 0, 0), (33, 256, 0, 0)];
    plays(&rt, rt.alloc(), pool(64, 8, 4), &ROWS, &left, (2, 0));
}

#[test]
fn sends_are_refused_in_their_order(rt: HostRuntime) {
    const ROWS: [Row; 10] = [
        (Request::Adopt(0, 0), Ok(Reply::Done)),
        (Request::Adopt(27, 1), Ok(Reply::Done)),
        (Request::Claim(27, 15), Ok(Reply::Chunk(0))),
        (Request::Alloc(27, 500), slot!(0, 0)),
        (Request::Free(0, (0, 0)), Ok(Reply::Cached)),
        (Request::Send(0, 3), Err(Refusal::NotAnOwner)),
        (Request::Send(0, 2), Err(Refusal::NothingFor)),
        (Request::Send(0, 0), Err(Refusal::ToSelf)),
        (Request::Send(0, 64), Err(Refusal::NoDesk)),
        (Request::Send(3, 0), Err(Refusal::Idle)),
    ];
    let left = [(0, 0, 1, 0), (27, 7, 0, 0)];
    plays(&rt, rt.alloc(), pool(64, 8, 2), &ROWS, &left, (1, 0));
}

// The requests of the rows. Where memory for them was refused, the next try works.
fn requests_of(rt: &impl Abort, alloc: Global, rows: &[Row]) -> Vec<Request> {
    let mut requests = Vec::new(alloc);
    for row in rows {
        if requests.push(row.0).is_err() {
            assert!(rt; requests.push(row.0).is_ok());
        }
    }
    requests
}

// Whether memory was there for each request. Where it was refused, the answers that follow are those of another run.
fn are_answers(rt: &impl Abort, answers: &[Answer], rows: &[Row]) -> bool {
    assert!(rt; answers.len() == rows.len());
    for (row, answer) in rows.iter().zip(answers) {
        if *answer == Err(Refusal::NoMemory) {
            return false;
        }
        is_answer(rt, *answer, *row);
    }
    true
}

// All at once. Where there was no memory for the answers, nothing is asked, and the next try works.
fn run(rt: &impl Abort, alloc: Global, floor: &mut Floor<'_>, requests: &[Request]) -> Vec<Answer> {
    match hand_out(alloc, floor, requests) {
        Ok(answers) => answers,
        Err(_) => {
            closes(rt, floor, 64, &[], (0, 0));
            let answers = hand_out(alloc, floor, requests).ok();
            answers.expect(rt, "memory is there again")
        }
    }
}

fn runs(rt: &impl Abort, alloc: Global, floor: &mut Floor<'_>) -> bool {
    let requests = requests_of(rt, alloc, &TRAVEL);
    let answers = run(rt, alloc, floor, &requests);
    let are_due = are_answers(rt, &answers, &TRAVEL);
    if are_due {
        closes(rt, floor, 64, &TRAVELLED, (3, 0));
    }
    are_due
}

// As one list of requests: the answers are those of the requests one by one.
#[test]
fn a_run_gives_the_answers_of_its_requests(rt: HostRuntime) {
    let made = pool(64, 8, 2);
    if !on_floor(&rt, rt.alloc(), made, |floor| runs(&rt, rt.alloc(), floor)) {
        assert!(rt; on_floor(&rt, rt.alloc(), made, |floor| runs(&rt, rt.alloc(), floor)));
    }
}
