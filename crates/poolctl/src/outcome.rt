//! How a command ends.
ghost use Rattle.std.specs.Prelude.{◌≡◌};
ghost use Rattle.poolctl.specs.Outcomes.{audited_outcome_of, outcome_of, status_of, words_of};

use trace_audit::{End, Fault, ReplayError};

/// How a command ended: one variant for each exit status and its words.
#[derive(Debug, PartialEq, Eq, Drop)]
pub enum Outcome {
    /// Done. Status 0.
    Done,
    /// The trace has a bad line, or there is no room for its region or floor; the report says so.
    /// Status 1.
    Stopped,
    /// The audit behind the report, or behind a workload's counts, doesn't say yes; its line says what it found, or
    /// that there was no memory for it.
    /// Status 1.
    AuditFailed,
    /// Want of memory outside a report. Status 1.
    NoMemory,
    /// A thread couldn't be started. Status 1.
    NoThread,
    /// The words of the command line were refused, or ask for help, and this is the text. Status 2.
    Refused(String),
    /// Standard input failed. Status 3.
    ReadFailed,
    /// Standard output failed, or took nothing. Status 3.
    WriteFailed,
}

impl Outcome {
    /// The exit status.
    pub fn status(&self) -> u8
        ensures { result ≡ status_of self.now }
    {
        match self {
            Outcome::Done => 0,
            Outcome::Stopped | Outcome::AuditFailed | Outcome::NoMemory | Outcome::NoThread => 1,
            Outcome::Refused(_) => 2,
            Outcome::ReadFailed | Outcome::WriteFailed => 3,
        }
    }

    /// What goes to standard error, with its line feed; empty where there is nothing to say.
    pub fn words(&self) -> &str
        ensures { result.now ≡ words_of self.now }
    {
        match self {
            Outcome::Done | Outcome::Stopped | Outcome::AuditFailed => "",
            Outcome::NoMemory => "poolctl: no memory\n",
            Outcome::NoThread => "poolctl: no thread\n",
            Outcome::Refused(text) => text.as_str(),
            Outcome::ReadFailed => "poolctl: read failed\n",
            Outcome::WriteFailed => "poolctl: write failed\n",
        }
    }
}

/// How the subcommand `replay` ends.
pub fn replayed(ended: Result<End, ReplayError>) -> Outcome
    ensures { result ≡ outcome_of ended }
{
    match ended {
        Ok(End::Whole) => Outcome::Done,
        Ok(End::BadLine(_)) | Ok(End::NoRoom) => Outcome::Stopped,
        Err(ReplayError::Read) => Outcome::ReadFailed,
        Err(ReplayError::Write) => Outcome::WriteFailed,
    }
}

/// How `replay --audit` ends.
pub fn audited(ended: Result<(End, Option<Result<(), Fault>>), ReplayError>) -> Outcome
    ensures { result ≡ audited_outcome_of ended }
{
    match ended {
        Ok((_, Some(Err(_)))) => Outcome::AuditFailed,
        Ok((end, _)) => replayed(Ok(end)),
        Err(error) => replayed(Err(error)),
    }
}
