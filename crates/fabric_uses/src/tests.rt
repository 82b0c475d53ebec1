//! Tests of a fabric: posts that are refused, and desks and stations that are missing.

mod bounded;
mod given_back;
mod going_on;
mod lacking;
mod leaving;
mod memory;
mod no_memory;
mod refused;
mod told;
mod two_stations;
