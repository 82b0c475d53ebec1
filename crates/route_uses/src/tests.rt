//! Rows that were worked out by hand.
mod desks;
mod given_back;
mod listing;
mod no_memory;
mod numbers;
mod refusals;
mod rounds;
mod samples;
mod sinks;
