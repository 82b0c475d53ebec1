//! The JSON object of a line, or of a piece of one.

ghost use Rattle.std.specs.Prelude.{◌≡◌, ◌++◌, List, ℕ, OnOk, codes, decimal};
ghost use Rattle.syslog_lines.specs.Heads.{IsHeadOf};
ghost use Rattle.syslog_lines.specs.Objects.{IsObjectOf, escaped_of, last_of, member_of, members_of, object_of, place_of};
ghost use Rattle.syslog_lines.specs.Objects.{keyword_member, known_of, priority_of};
ghost use Rattle.syslog_lines.specs.Priorities.{severity_of};

use crate::escape::{Coding, push_text};
use crate::head::Head;
use crate::mark::Mark;
use crate::priority::Priority;
use itoa::Buffer;
use std::alloc::AllocError;

/// Appends the JSON object of a piece, and a line feed. The first piece of a line has its head.
pub fn push_object(out: &mut Vec<u8>, mark: Mark, piece: &[u8]) -> Result<(), AllocError>
    ensures { OnOk result ((text : List ℕ) × (out.new.items ≡ out.old.items ++ text) × IsObjectOf mark piece.now text) }
{
    let head = head_of(mark, piece);
    push_parts(out, mark, &head, Coding::of(piece))
}

fn head_of(mark: Mark, piece: &[u8]) -> Head<'_>
    ensures { IsHeadOf piece.now result }
{
    if mark.piece == 0 {
        Head::read(piece)
    } else {
        Head::bare(piece)
    }
}

fn push_parts(
    out: &mut Vec<u8>,
    mark: Mark,
    head: &Head<'_>,
    coding: Coding,
) -> Result<(), AllocError>
    ensures { OnOk result (out.new.items ≡ out.old.items ++ object_of mark coding head.now) }
{
    push_mark(out, mark)?;
    push_escaped(out, coding)?;
    push_priority(out, head.priority)?;
    push_members(out, head, coding)?;
    out.extend_from_slice(b"}\n")
}

fn push_escaped(out: &mut Vec<u8>, coding: Coding) -> Result<(), AllocError>
    ensures { OnOk result (out.new.items ≡ out.old.items ++ escaped_of coding) }
{
    match coding {
        Coding::Text => Ok(()),
        Coding::Escaped => out.extend_from_slice(b",\"escaped\":true"),
    }
}

// The line's number, and where it is in pieces, which one this is. Both count from 1.
fn push_mark(out: &mut Vec<u8>, mark: Mark) -> Result<(), AllocError>
    ensures { OnOk result (out.new.items ≡ out.old.items ++ place_of mark) }
{
    out.extend_from_slice(b"{\"line\":")?;
    push_number(out, mark.line)?;
    if mark.is_whole() {
        return Ok(());
    }
    out.extend_from_slice(b",\"piece\":")?;
    push_number(out, mark.piece.saturating_add(1))?;
    push_last(out, mark.is_last)
}

fn push_last(out: &mut Vec<u8>, is_last: bool) -> Result<(), AllocError>
    ensures { OnOk result (out.new.items ≡ out.old.items ++ last_of is_last) }
{
    if is_last {
        out.extend_from_slice(b",\"last\":true")
    } else {
        out.extend_from_slice(b",\"last\":false")
    }
}

fn push_number(out: &mut Vec<u8>, number: u64) -> Result<(), AllocError>
    ensures { OnOk result (out.new.items ≡ out.old.items ++ decimal number) }
{
    let mut digits = Buffer::new();
    out.extend_from_slice(digits.format(number).as_bytes())
}

fn push_priority(out: &mut Vec<u8>, priority: Option<Priority>) -> Result<(), AllocError>
    ensures { OnOk result (out.new.items ≡ out.old.items ++ priority_of priority) }
{
    match priority {
        Some(priority) => push_known(out, priority),
        None => Ok(()),
    }
}

fn push_known(out: &mut Vec<u8>, priority: Priority) -> Result<(), AllocError>
    ensures { OnOk result (out.new.items ≡ out.old.items ++ known_of priority.0) }
{
    push_value(out, priority)?;
    push_keyword(out, b",\"facility\":\"", priority.facility())?;
    push_keyword(out, b",\"severity\":\"", keyword_of_severity(priority))
}

fn push_value(out: &mut Vec<u8>, priority: Priority) -> Result<(), AllocError>
    ensures { OnOk result (out.new.items ≡ out.old.items ++ (codes ",\"priority\":" ++ decimal priority.0)) }
{
    out.extend_from_slice(b",\"priority\":")?;
    push_number(out, u64::from(priority.number()))
}

fn keyword_of_severity(priority: Priority) -> &'static str
    ensures { result.now ≡ severity_of priority.0 }
{
    priority.severity().keyword()
}

fn push_keyword(out: &mut Vec<u8>, ahead: &[u8], keyword: &str) -> Result<(), AllocError>
    ensures { OnOk result (out.new.items ≡ out.old.items ++ keyword_member ahead.now keyword.now) }
{
    out.extend_from_slice(ahead)?;
    out.extend_from_slice(keyword.as_bytes())?;
    out.extend_from_slice(b"\"")
}

fn push_members(out: &mut Vec<u8>, head: &Head<'_>, coding: Coding) -> Result<(), AllocError>
    ensures { OnOk result (out.new.items ≡ out.old.items ++ members_of coding head.now) }
{
    push_member(out, b",\"time\":\"", head.time, coding)?;
    push_member(out, b",\"host\":\"", head.host, coding)?;
    push_member(out, b",\"app\":\"", head.app, coding)?;
    push_member(out, b",\"procid\":\"", head.procid, coding)?;
    push_member(out, b",\"msgid\":\"", head.msgid, coding)?;
    push_member(out, b",\"data\":\"", head.data, coding)?;
    push_member(out, b",\"message\":\"", Some(head.message), coding)
}

// A member with a text, where there is one. What stands ahead of the text is given whole.
fn push_member(
    out: &mut Vec<u8>,
    ahead: &[u8],
    text: Option<&[u8]>,
    coding: Coding,
) -> Result<(), AllocError>
    ensures { OnOk result (out.new.items ≡ out.old.items ++ member_of ahead.now coding text.entry) }
{
    let Some(text) = text else {
        return Ok(());
    };
    out.extend_from_slice(ahead)?;
    push_text(out, text, coding)?;
    out.extend_from_slice(b"\"")
}

#[cfg(test)]
mod tests;
