//! What a desk's answers are called on the floor.
ghost use Rattle.std.specs.Prelude.{◌≡◌};
ghost use Rattle.event_floor.specs.DeskAnswers.{reply_of, refusal_of, route_refusal};

use digit_route::RouteError;
use pool_desk::{DeskError, Freed};
use pool_machine::{Refusal, Reply};

/// Where a freed buffer went.
pub(crate) fn reply_of_free(freed: Freed) -> Reply
    ensures { result ≡ reply_of freed }
{
    match freed {
        Freed::Home => Reply::Home,
        Freed::Cached => Reply::Cached,
        Freed::Due => Reply::Due,
    }
}

/// Why a desk refused.
pub(crate) fn refusal_by_desk(error: DeskError) -> Refusal
    ensures { result ≡ refusal_of error }
{
    match error {
        DeskError::TooLarge => Refusal::TooLarge,
        DeskError::NeedChunk(_) => Refusal::NeedChunk,
        DeskError::NotNeeded => Refusal::NotNeeded,
        DeskError::Unsettled => Refusal::Unsettled,
        DeskError::NoMemory => Refusal::NoMemory,
    }
}

/// Why a desk has no batch for another.
pub(crate) fn refusal_by_route(error: RouteError) -> Refusal
    ensures { result ≡ route_refusal error }
{
    match error {
        RouteError::ToSelf => Refusal::ToSelf,
        RouteError::NothingFor => Refusal::NothingFor,
        RouteError::NotAnOwner => Refusal::NotAnOwner,
    }
}
