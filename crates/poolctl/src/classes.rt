//! The subcommand `classes`.
ghost use Rattle.std.specs.Prelude.{◌≡◌, ◌↔◌, ◌⊎◌, false, true, IfOk, string_bytes};
ghost use Rattle.std.specs.Io.KnownBytes.{Appends};
ghost use Rattle.region_cut.specs.Classes.{classes_of};
ghost use Rattle.trace_audit.specs.Wire.{Begins};
ghost use Rattle.poolctl.specs.Classes.{class_line, class_lines};

use crate::outcome::Outcome;
use region_cut::{CHUNK, Class, Profile};
use std::alloc::{AllocError, Global};
use trace_audit::{Sink, write_all};

/// The line `CLASS SIZE SLOTS REST` of a class: its number, the size of its slots in bytes, how
/// many slots a chunk has, and how many bytes of the chunk are left over.
fn class_line(alloc: Global, class: Class) -> Result<String, AllocError>
    ensures { IfOk result (λ line. string_bytes line ≡ class_line class) }
{
    let number = class.number();
    let size = class.size();
    let slots = class.slots();
    let rest = CHUNK % size;
    format!(in alloc; "{number} {size} {slots} {rest}\n")
}

/// Writes the line of each class of the profile.
pub fn write_classes<W: Sink>(alloc: Global, profile: Profile, sink: &mut W) -> Outcome
    requires { W.has_failed sink.old ≡ false }
    ensures done { result ≡ Outcome.Done →
        Appends (W.contents sink.old) (W.contents sink.new) (class_lines (classes_of profile)) }
    // However it ends, a beginning of the lines was written.
    ensures begun { Begins (W.contents sink.old) (W.contents sink.new) (class_lines (classes_of profile)) }
    ensures known { (result ≡ Outcome.Done) ⊎ (result ≡ Outcome.NoMemory) ⊎ (result ≡ Outcome.WriteFailed) }
    ensures write { (W.has_failed sink.new ≡ true) ↔ (result ≡ Outcome.WriteFailed) }
{
    for number in 0..profile.classes() {
        let Some(class) = Class::new(number) else {
            unreachable!()
        };
        let Ok(line) = class_line(alloc, class) else {
            return Outcome::NoMemory;
        };
        match write_all(sink, line.as_str().as_bytes()) {
            Ok(()) => {}
            Err(_) => return Outcome::WriteFailed,
        }
    }
    Outcome::Done
}
