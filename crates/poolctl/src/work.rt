//! The subcommand `work`.
ghost use Rattle.std.specs.Prelude.{◌≡◌, ◌↔◌, ◌⊎◌, false, true, IfOk, IsErr, IsOk, ◌++◌, string_bytes};
ghost use Rattle.trace_audit.specs.Report.{audit_line};
ghost use Rattle.trace_audit.specs.Wire.{Begins, Writes};
ghost use Rattle.std.specs.Io.KnownBytes.{Appends};
ghost use Rattle.pool_jobs.specs.declared.tally.Tally.{Tally as Counted};
ghost use Rattle.poolctl_words.specs.Asked.{CanRun, workload_name};
ghost use Rattle.poolctl.specs.Works.{IsTallyOf, tally_text, work_text};

use crate::lines::{push_number, push_word};
use crate::outcome::Outcome;
use link_inbox::{LinkInbox, SendSeat, TakeSeat};
use pool_fabric::Opening;
use pool_jobs::{BufferCounts, JobError, NoGate, Plan, Tally, Workload, work_linked};
use poolctl_words::Work;
use rand_pcg::Pcg32;
use region_cut::{CHUNK, cut};
use std::alloc::{AllocError, Global};
use std::sync::Wait;
use std::thread::Threads;
use std::time::Clock;
use trace_audit::{Failed, Fault, Sink, write_all, write_audit};

fn name_of(workload: Workload) -> &'static str
    ensures { result.now ≡ workload_name workload }
{
    match workload {
        Workload::ProdCons => "prodcons",
        Workload::Ring => "ring",
        Workload::Replace => "replace",
    }
}

/// The lines of a run, without that of its audit.
fn tally_text(alloc: Global, work: &Work, counts: BufferCounts) -> Result<String, AllocError>
    ensures { IfOk result (λ text. string_bytes text ≡ tally_text work.now counts) }
{
    let mut text = String::new(alloc);
    push_word(&mut text, "workload", name_of(work.workload))?;
    push_number(&mut text, "threads", u64::from(work.threads))?;
    push_number(&mut text, "allocated", counts.allocated)?;
    push_number(&mut text, "freed", counts.freed)?;
    push_number(&mut text, "starved", counts.starved)?;
    push_number(&mut text, "lost", counts.lost)?;
    Ok(text)
}

// Writes a text, and the line of an audit behind it. At an error a beginning of both was written.
fn write_both<W: Sink>(text: &str, audit: Result<(), Fault>, sink: &mut W) -> Result<(), Failed>
    requires { W.has_failed sink.old ≡ false }
    ensures { Writes (W.contents sink.old) (W.contents sink.new) (W.has_failed sink.new)
        (text.now ++ audit_line audit) result }
{
    write_all(sink, text.as_bytes())?;
    write_audit(audit, sink)
}

/// Writes what a workload counted, and its audit's line.
fn write_tally<W: Sink>(alloc: Global, work: &Work, tally: Tally, sink: &mut W) -> Outcome
    requires { W.has_failed sink.old ≡ false }
    ensures done { result ≡ Outcome.Done → IsOk tally.audit
        × Appends (W.contents sink.old) (W.contents sink.new) (work_text work.now tally) }
    ensures audit { result ≡ Outcome.AuditFailed → IsErr tally.audit
        × Appends (W.contents sink.old) (W.contents sink.new) (work_text work.now tally) }
    // No memory is wanted once something was written.
    ensures memory { result ≡ Outcome.NoMemory → sink.new ≡ sink.old }
    ensures begun { result ≡ Outcome.WriteFailed →
        Begins (W.contents sink.old) (W.contents sink.new) (work_text work.now tally) }
    ensures known { (result ≡ Outcome.Done) ⊎ (result ≡ Outcome.AuditFailed) ⊎ (result ≡ Outcome.NoMemory)
        ⊎ (result ≡ Outcome.WriteFailed) }
    ensures write { (W.has_failed sink.new ≡ true) ↔ (result ≡ Outcome.WriteFailed) }
{
    let Ok(text) = tally_text(alloc, work, tally.counts) else {
        return Outcome::NoMemory;
    };
    match (write_both(text.as_str(), tally.audit, sink), tally.audit) {
        (Err(_), _) => Outcome::WriteFailed,
        (Ok(()), Err(_)) => Outcome::AuditFailed,
        (Ok(()), Ok(())) => Outcome::Done,
    }
}

// Runs a workload over the region.
fn tally_over<'r, H: Threads + Wait + Clock + Sync>(
    rt: &H,
    alloc: Global,
    asked: &Work,
    region: &'r mut [u8],
) -> Result<Tally, JobError>
    requires { CanRun asked.now }
    ensures { IfOk result (IsTallyOf asked.now) }
{
    let Ok(parts) = cut(alloc, region) else {
        return Err(JobError::NoMemory);
    };
    let opening = Opening::<'r, LinkInbox<'r>, TakeSeat<'r>, SendSeat<'r>>::new(
        alloc,
        parts,
        asked.threads as u16,
        asked.digits,
        u64::from(asked.limit),
    );
    let Ok(opening) = opening else {
        return Err(JobError::NoMemory);
    };
    let plan = Plan {
        count: asked.count,
        rounds: asked.rounds,
        seed: asked.seed,
        drop_first: asked.drop_first,
    };
    let report = work_linked::<NoGate, Pcg32, H>(
        rt,
        alloc,
        opening,
        &NoGate,
        asked.workload,
        &plan,
    )?;
    Ok(report.tally)
}

// Runs a workload over a region of its own. By itself, so that the program's first function has none of its
// locals.
#[inline(never)]
fn tally_of<H: Threads + Wait + Clock + Sync>(
    rt: &H,
    alloc: Global,
    asked: &Work,
) -> Result<Tally, JobError>
    requires { CanRun asked.now }
    ensures { IfOk result (IsTallyOf asked.now) }
{
    let Ok(mut region) = vec![in alloc; 0u8; asked.chunks as usize * CHUNK] else {
        return Err(JobError::NoMemory);
    };
    tally_over(rt, alloc, asked, region.as_mut_slice())
}

/// Runs a workload, and writes what was counted and the line of the audit. Nothing is written where the
/// workload could not be run, or its lines could not be made, for want of memory or of a thread.
pub fn run_work<W: Sink, H: Threads + Wait + Clock + Sync>(
    rt: &H,
    alloc: Global,
    asked: &Work,
    sink: &mut W,
) -> Outcome
    requires down { W.has_failed sink.old ≡ false }
    requires runs { CanRun asked.now }
    ensures done { result ≡ Outcome.Done → (t : Counted) × IsTallyOf asked.now t × IsOk t.audit
        × Appends (W.contents sink.old) (W.contents sink.new) (work_text asked.now t) }
    ensures audit { result ≡ Outcome.AuditFailed → (t : Counted) × IsTallyOf asked.now t × IsErr t.audit
        × Appends (W.contents sink.old) (W.contents sink.new) (work_text asked.now t) }
    ensures unrun { (result ≡ Outcome.NoMemory) ⊎ (result ≡ Outcome.NoThread) → sink.new ≡ sink.old }
    ensures begun { result ≡ Outcome.WriteFailed → (t : Counted) × IsTallyOf asked.now t
        × Begins (W.contents sink.old) (W.contents sink.new) (work_text asked.now t) }
    ensures known { (result ≡ Outcome.Done) ⊎ (result ≡ Outcome.AuditFailed) ⊎ (result ≡ Outcome.NoMemory)
        ⊎ (result ≡ Outcome.NoThread) ⊎ (result ≡ Outcome.WriteFailed) }
    ensures write { (W.has_failed sink.new ≡ true) ↔ (result ≡ Outcome.WriteFailed) }
{
    match tally_of(rt, alloc, asked) {
        Ok(tally) => write_tally(alloc, asked, tally, sink),
        Err(JobError::NoMemory) => Outcome::NoMemory,
        Err(JobError::NoThread) => Outcome::NoThread,
    }
}
