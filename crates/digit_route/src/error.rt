//! Why a call of this crate is refused.
ghost use Rattle.std.specs.Prelude.{◌≡◌};
ghost use Rattle.digit_route.specs.Refusals.{refusal_number};

use thiserror::Error;

/// Why a desk has no batch for the address that was asked for. The cache is then as before.
///
/// The variants are tested in this order, so each says that none above it holds.
#[derive(Clone, Copy, Debug, PartialEq, Eq, Drop, Error)]
pub enum RouteError {
    /// The address is the desk itself.
    #[error("a desk sends no batch to itself")]
    ToSelf,
    /// The bucket for the address is empty.
    #[error("no cached buffer goes to that desk")]
    NothingFor,
    /// The bucket isn't empty, but the address owns nothing in it.
    #[error("that desk owns none of the buffers that would go to it")]
    NotAnOwner,
}

impl RouteError {
    /// Its number, from 1, in the order in which the refusals are tested.
    pub fn number(self) -> u32
        ensures { result ≡ refusal_number self }
    {
        match self {
            RouteError::ToSelf => 1,
            RouteError::NothingFor => 2,
            RouteError::NotAnOwner => 3,
        }
    }
}
