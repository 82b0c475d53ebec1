//! The head of RFC 3164, behind the priority.

ghost use Rattle.std.specs.Prelude.{◌≡◌, None, IfSome};
ghost use Rattle.syslog_lines.specs.Heads.{IsEnd, IsHeadOf, IsPart};

use crate::head::Head;
use crate::shape::{begins_as, split_word};
use memchr::memchr3;

/// Reads the time, the host, the program and its process. The host may be missing, as in what a program sends
/// to its own host, and so may the program.
#[tactic(auto, using(crate::proofs::Parts::parts))]
pub(crate) fn read_local(rest: &[u8]) -> Option<Head<'_>>
    ensures parts { IfSome result (IsHeadOf rest.now) }
    ensures none { IfSome result (λ h. h.priority ≡ None) }
{
    let (time, rest) = split_time(rest)?;
    let (host, text) = split_host(rest);
    let head = read_tag_or_none(text);
    Some(Head {
        time: Some(time),
        host,
        ..head
    })
}

// A time as RFC 3164 has it, or as RFC 3339 has it, and what follows its space.
#[tactic(auto, using(crate::proofs::Parts::parts))]
fn split_time(text: &[u8]) -> Option<(&[u8], &[u8])>
    ensures time { IfSome result (λ r. IsPart text.now r.0.now) }
    ensures rest { IfSome result (λ r. IsEnd text.now r.1.now) }
{
    if begins_as(text, b"0000-00-00T00:00:00") {
        return split_word(text);
    }
    let (time, behind) = text.split_at_checked(SHORT_TIME)?;
    let (space, rest) = behind.split_first()?;
    if *space == b' ' && is_short_time(time) {
        Some((time, rest))
    } else {
        None
    }
}

// How long a time of RFC 3164 is.
const SHORT_TIME: usize = 15;

fn is_short_time(time: &[u8]) -> bool {
    match time.split_at_checked(3) {
        Some((month, rest)) => is_month(month) && begins_as(rest, b" _0 00:00:00"),
        None => false,
    }
}

fn is_month(word: &[u8]) -> bool {
    matches!(
        word,
        b"Jan"
            | b"Feb"
            | b"Mar"
            | b"Apr"
            | b"May"
            | b"Jun"
            | b"Jul"
            | b"Aug"
            | b"Sep"
            | b"Oct"
            | b"Nov"
            | b"Dec"
    )
}

// The host, and what follows it. A word with a colon or a bracket behind it is the program, and no host.
#[tactic(auto, using(crate::proofs::Parts::parts))]
fn split_host(text: &[u8]) -> (Option<&[u8]>, &[u8])
    ensures host { IfSome result.0 (λ w. IsPart text.now w.now) }
    ensures rest { IsEnd text.now result.1.now }
{
    match split_word(text) {
        Some((word, rest)) if is_host(word) => (Some(word), rest),
        _ => (None, text),
    }
}

fn is_host(word: &[u8]) -> bool {
    match word {
        [.., b':' | b']'] | [] => false,
        _ => true,
    }
}

// `PROGRAM: message`, `PROGRAM[PROCESS]: message` or `PROGRAM[PROCESS] message`.
#[tactic(auto, using(crate::proofs::Parts::parts))]
fn read_tag(text: &[u8]) -> Option<Head<'_>>
    ensures parts { IfSome result (IsHeadOf text.now) }
    ensures none { IfSome result (λ h. h.priority ≡ None) }
{
    let end = memchr3(b':', b'[', b' ', text)?;
    let (app, rest) = text.split_at_checked(end)?;
    if app.is_empty() {
        return None;
    }
    let (procid, message) = split_process(rest)?;
    Some(Head {
        priority: None,
        time: None,
        host: None,
        app: Some(app),
        procid,
        msgid: None,
        data: None,
        message: without_space(message),
    })
}

// The same, or a line that says nothing of itself.
fn read_tag_or_none(text: &[u8]) -> Head<'_>
    ensures parts { IsHeadOf text.now result }
    ensures none { result.priority ≡ None }
{
    match read_tag(text) {
        Some(head) => head,
        None => Head::bare(text),
    }
}

// The process, where there is one, and what stands behind it and a colon.
#[tactic(auto, using(crate::proofs::Parts::parts))]
fn split_process(text: &[u8]) -> Option<(Option<&[u8]>, &[u8])>
    ensures process { IfSome result (λ r. IfSome r.0 (λ p. IsPart text.now p.now)) }
    ensures rest { IfSome result (λ r. IsEnd text.now r.1.now) }
{
    let (first, rest) = text.split_first()?;
    match first {
        b':' => Some((None, rest)),
        b'[' => {
            let (procid, message) = split_bracket(rest)?;
            Some((procid, message))
        }
        _ => None,
    }
}

// What stands before the bracket, and what stands behind it. `rsyslog` leaves the colon away in its files, where the
// message came by RFC 5424.
#[tactic(auto, using(crate::proofs::Parts::parts))]
fn split_bracket(text: &[u8]) -> Option<(Option<&[u8]>, &[u8])>
    ensures process { IfSome result (λ r. IfSome r.0 (λ p. IsPart text.now p.now)) }
    ensures rest { IfSome result (λ r. IsEnd text.now r.1.now) }
{
    let end = memchr3(b']', b'[', b' ', text)?;
    let (procid, behind) = text.split_at_checked(end)?;
    let (bracket, rest) = behind.split_first()?;
    let (next, message) = rest.split_first()?;
    match (bracket, next) {
        (b']', b':') => Some((Some(procid), message)),
        (b']', b' ') => Some((Some(procid), rest)),
        _ => None,
    }
}

// A text, without a space at its front.
#[tactic(auto, using(crate::proofs::Parts::parts))]
fn without_space(text: &[u8]) -> &[u8]
    ensures { IsEnd text.now result.now }
{
    match text.split_first() {
        Some((b' ', rest)) => rest,
        _ => text,
    }
}
