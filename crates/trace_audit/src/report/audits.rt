//! The line of an audit.
ghost use Rattle.std.specs.Prelude.{◌≡◌, ◌≤◌, ◌+◌, ◌++◌, false};
ghost use Rattle.arrayvec.specs.ArrayVec.{array_vec_len};
ghost use Rattle.trace_audit.specs.Report.{audit_line, fault_text};
ghost use Rattle.trace_audit.specs.Wire.{Writes};

use super::answers::push_slot;
use super::text::{Line, push_text};
use crate::Fault;
use crate::wire::{Failed, Sink, write_all};

fn push_fault(line: &mut Line, fault: Fault)
    requires { array_vec_len line.old ≤ 10 }
    ensures items { line.new.items ≡ line.old.items ++ fault_text fault }
    ensures len { array_vec_len line.new ≤ 100 }
{
    match fault {
        Fault::Stranger(slot) => {
            push_text(line, b"stranger ");
            push_slot(line, slot);
        }
        Fault::Doubled(slot) => {
            push_text(line, b"doubled ");
            push_slot(line, slot);
        }
        Fault::Missing(slot) => {
            push_text(line, b"missing ");
            push_slot(line, slot);
        }
        Fault::NoMemory => push_text(line, b"no memory"),
    }
}

fn line_of_audit(answer: Result<(), Fault>) -> Line
    ensures { result.items ≡ audit_line answer }
{
    let mut line = Line::new();
    push_text(&mut line, b"audit ");
    match answer {
        Ok(()) => push_text(&mut line, b"yes"),
        Err(fault) => push_fault(&mut line, fault),
    }
    push_text(&mut line, b"\n");
    line
}

/// Writes the line of an audit, as `audit yes` or `audit missing 0.0`. At an error some beginning
/// of it was written.
pub fn write_audit<W: Sink>(answer: Result<(), Fault>, writer: &mut W) -> Result<(), Failed>
    requires { W.has_failed writer.old ≡ false }
    ensures { Writes (W.contents writer.old) (W.contents writer.new) (W.has_failed writer.new)
        (audit_line answer) result }
{
    let line = line_of_audit(answer);
    write_all(writer, line.as_slice())
}
