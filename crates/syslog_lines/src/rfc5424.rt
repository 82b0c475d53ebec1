//! The head of RFC 5424, behind the priority.

ghost use Rattle.std.specs.Prelude.{◌≡◌, None, IfSome};
ghost use Rattle.syslog_lines.specs.Heads.{IsEnd, IsHeadOf, IsPart};

use crate::head::Head;
use crate::shape::{begins_as, is_printable, split_word};

/// Reads the version, the time, the host, the program, its process, the kind of message and the structured
/// data. A dash stands for nothing.
#[tactic(auto, using(crate::proofs::Parts::parts))]
pub(crate) fn read_rfc5424(rest: &[u8]) -> Option<Head<'_>>
    ensures parts { IfSome result (IsHeadOf rest.now) }
    ensures none { IfSome result (λ h. h.priority ≡ None) }
{
    let rest = rest.strip_prefix(b"1 ".as_slice())?;
    let (time, rest) = field(rest)?;
    if !is_time(time) {
        return None;
    }
    let (host, rest) = field(rest)?;
    let (app, rest) = field(rest)?;
    let (procid, rest) = field(rest)?;
    let (msgid, rest) = field(rest)?;
    let (data, message) = structured(rest)?;
    Some(Head {
        priority: None,
        time,
        host,
        app,
        procid,
        msgid,
        data,
        message,
    })
}

// A dash, or a date and a time of day.
fn is_time(time: Option<&[u8]>) -> bool {
    match time {
        Some(time) => begins_as(time, b"0000-00-00T00:00:00"),
        None => true,
    }
}

// A field and what follows its space. Its bytes print.
#[tactic(auto, using(crate::proofs::Parts::parts))]
fn field(text: &[u8]) -> Option<(Option<&[u8]>, &[u8])>
    ensures word { IfSome result (λ r. IfSome r.0 (λ w. IsPart text.now w.now)) }
    ensures rest { IfSome result (λ r. IsEnd text.now r.1.now) }
{
    let (word, rest) = split_word(text)?;
    if word.is_empty() || !word.iter().all(|byte| is_printable(*byte)) {
        return None;
    }
    Some((some_word(word), rest))
}

fn some_word(word: &[u8]) -> Option<&[u8]>
    ensures { IfSome result (λ w. w.now ≡ word.now) }
{
    if word == b"-".as_slice() {
        None
    } else {
        Some(word)
    }
}

// The structured data, and the message.
#[tactic(auto, using(crate::proofs::Parts::parts))]
fn structured(text: &[u8]) -> Option<(Option<&[u8]>, &[u8])>
    ensures elements { IfSome result (λ r. IfSome r.0 (λ w. IsPart text.now w.now)) }
    ensures rest { IfSome result (λ r. IsEnd text.now r.1.now) }
{
    let len = if text.first() == Some(&b'-') {
        1
    } else {
        elements(text)?
    };
    let (data, rest) = text.split_at_checked(len)?;
    match rest {
        [] => Some((some_word(data), rest)),
        [b' ', message @ ..] => Some((some_word(data), message)),
        _ => None,
    }
}

#[derive(Clone, Copy, PartialEq, Eq)]
enum Place {
    BetweenElements,
    InElement,
    InValue,
    BehindBackslash,
}

// How many bytes the elements in brackets have that stand at the front. In a value, which stands in quotes, a
// backslash takes its meaning from a quote, a bracket or a backslash behind it.
fn elements(text: &[u8]) -> Option<usize> {
    let mut place = Place::BetweenElements;
    for (at, byte) in text.iter().enumerate() {
        place = match (place, *byte) {
            (Place::BetweenElements, b'[') => Place::InElement,
            (Place::BetweenElements, _) => return if at == 0 { None } else { Some(at) },
            (Place::InElement, b']') => Place::BetweenElements,
            (Place::InElement, b'"') => Place::InValue,
            (Place::InValue, b'"') => Place::InElement,
            (Place::InValue, b'\\') => Place::BehindBackslash,
            (Place::BehindBackslash, _) => Place::InValue,
            (place, _) => place,
        };
    }
    if place == Place::BetweenElements && !text.is_empty() {
        Some(text.len())
    } else {
        None
    }
}
