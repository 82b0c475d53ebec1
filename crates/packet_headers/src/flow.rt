//! From where to where a packet goes.

use std::net::IpAddr;

/// The ports of a TCP segment or a UDP datagram.
#[derive(Clone, Copy, Debug, PartialEq, Eq, PartialOrd, Ord, Hash)]
pub struct Ports {
    pub source: u16,
    pub destination: u16,
}

/// What packets of one flow have in common: addresses, what they carry, and the ports where they have some
/// that can be read. Each direction is a flow of its own. Later fragments have no ports.
#[derive(Clone, Copy, Debug, PartialEq, Eq, PartialOrd, Ord, Hash)]
pub struct Flow {
    pub source: IpAddr,
    pub destination: IpAddr,
    /// The number of IANA.
    pub protocol: u8,
    pub ports: Option<Ports>,
}
