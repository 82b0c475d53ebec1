//! Where an inbox is.
use digit_route::Digits;

/// Where an inbox is: the number of its desk, and how owner numbers are read there.
#[derive(Clone, Copy, Debug, PartialEq, Eq)]
pub struct Place {
    pub address: u16,
    pub digits: Digits,
}
