//! What is found by a walk along one magazine.
ghost use Rattle.std.specs.Prelude.{◌≡◌, ◌≢◌, [], Any};
ghost use Rattle.slot_chain.specs.Buffer.{Buffer};
ghost use Rattle.digit_route.specs.Digits.{Scheme};
ghost use Rattle.digit_route.specs.Route.{RouteFault};

use crate::{Digits, RouteError};
use slot_chain::Magazine;

/// The owner of some buffer of the magazine.
pub(crate) fn some_owner(magazine: &Magazine<'_>) -> u16
    requires { magazine.now ≢ [] }
    ensures { Any (λ (b : Buffer). b.owner ≡ result) magazine.now }
{
    match magazine.walk().next() {
        Some(tag) => tag.owner,
        None => unreachable!(),
    }
}

/// Why desk `a` takes no bucket for `t` out of this magazine.
pub(crate) fn fault_in(
    magazine: &Magazine<'_>,
    digits: Digits,
    a: u16,
    t: u16,
) -> Option<RouteError>
    requires { t ≢ a }
    ensures { RouteFault digits a t magazine.now result }
{
    let near = digits.common(a, t);
    let mut found = false;
    for tag in magazine.walk() {
        if digits.common(tag.owner, t) > near {
            if tag.owner == t {
                return None;
            }
            found = true;
        }
    }
    if found {
        Some(RouteError::NotAnOwner)
    } else {
        Some(RouteError::NothingFor)
    }
}
