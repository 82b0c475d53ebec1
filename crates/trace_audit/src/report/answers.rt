//! The lines of answers, and that of a bad line.
ghost use Rattle.std.specs.Prelude.{◌≡◌, ◌≤◌, ◌+◌, ◌++◌, codes};
ghost use Rattle.arrayvec.specs.ArrayVec.{array_vec_len};
ghost use Rattle.pool_machine.specs.RefusalNames.{refusal_name, refusal_number};
ghost use Rattle.region_cut.specs.Slots.{printed};
ghost use Rattle.trace_audit.specs.Report.{answer_line, bad_line, reply_text, two_digits};

use super::text::{Line, push_number, push_text};
use event_floor::{Refusal, Reply};
use region_cut::Slot;

/// Adds the slot, as `0.0`.
pub(crate) fn push_slot(line: &mut Line, slot: Slot)
    requires { array_vec_len line.old ≤ 20 }
    ensures items { line.new.items ≡ line.old.items ++ printed slot }
    ensures len { array_vec_len line.new ≤ 61 }
{
    push_number(line, u64::from(slot.chunk));
    push_text(line, b".");
    push_number(line, u64::from(slot.index));
}

fn push_reply(line: &mut Line, reply: Reply)
    requires { array_vec_len line.old ≡ 0 }
    ensures items { line.new.items ≡ line.old.items ++ reply_text reply }
    ensures len { array_vec_len line.new ≤ 100 }
{
    match reply {
        Reply::Done => push_text(line, b"ok"),
        Reply::Chunk(chunk) => {
            push_text(line, b"chunk ");
            push_number(line, u64::from(chunk));
        }
        Reply::Slot(slot) => {
            push_text(line, b"slot ");
            push_slot(line, slot);
        }
        Reply::Home => push_text(line, b"home"),
        Reply::Cached => push_text(line, b"cached"),
        Reply::Due => push_text(line, b"due"),
        Reply::Batch(number, count) => {
            push_text(line, b"batch ");
            push_number(line, u64::from(number));
            push_text(line, b" ");
            push_number(line, count);
        }
        Reply::Counts(home, on) => {
            push_text(line, b"home ");
            push_number(line, home);
            push_text(line, b" on ");
            push_number(line, on);
        }
    }
}

/// Adds the number with two digits, a space and the name, as `R04 NeedChunk`.
fn push_refusal(line: &mut Line, refusal: Refusal)
    requires { array_vec_len line.old ≡ 0 }
    ensures items { line.new.items ≡ line.old.items ++ codes "R" ++ two_digits (refusal_number refusal) ++ codes " "
        ++ refusal_name refusal }
    ensures len { array_vec_len line.new ≤ 100 }
{
    let number = refusal.number();
    push_text(line, if number < 10 { b"R0" } else { b"R" });
    push_number(line, u64::from(number));
    push_text(line, b" ");
    push_text(line, refusal.name().as_bytes());
}

/// Makes this the line of an answer, whatever it was before. One line serves all answers of a trace: a new one is
/// filled with zeros first.
pub(crate) fn set_answer(line: &mut Line, answer: Result<Reply, Refusal>)
    ensures { line.new.items ≡ answer_line answer }
{
    line.clear();
    match answer {
        Ok(reply) => push_reply(line, reply),
        Err(refusal) => push_refusal(line, refusal),
    }
    push_text(line, b"\n");
}

/// The line that names a bad line.
pub(crate) fn line_of_bad(number: u32) -> Line
    ensures { result.items ≡ bad_line number }
{
    let mut line = Line::new();
    push_text(&mut line, b"R17 BadLine ");
    push_number(&mut line, u64::from(number));
    push_text(&mut line, b"\n");
    line
}
