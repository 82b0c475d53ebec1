//! The headers of captured packets, and of the files that hold them.
//!
//! A capture file begins with a [`FileHeader`], and each packet in it with a [`RecordHeader`]. A packet is
//! a [`Layer`] of so many bytes, of which some were captured. Each function takes one header off the front
//! of a layer, and gives what it says and the layer behind it; it never looks behind what was captured.
//! [`decode`] goes through all layers that it knows.
#![tactic(auto)]

mod arp;
mod ethernet;
mod flow;
mod ipv4;
mod ipv6;
mod layer;
mod layers;
mod pcap;
mod protocol;
#[cfg(test)]
mod tests;
mod transport;

pub use arp::Arp;
pub use ethernet::{Ethernet, VlanTag};
pub use flow::{Flow, Ports};
pub use ipv4::Ipv4;
pub use ipv6::{Extension, ExtensionKind, Ipv6, Place};
pub use layer::{Fault, Layer};
pub use layers::{Decoded, LinkType, decode};
pub use pcap::{
    ByteOrder, FILE_HEADER, FileError, FileHeader, MOST_CAPTURED, Precision, RECORD_HEADER,
    RecordError, RecordHeader,
};
pub use protocol::{PROTOCOLS, Protocol, Protocols};
pub use transport::{icmp, icmpv6, tcp, udp};
