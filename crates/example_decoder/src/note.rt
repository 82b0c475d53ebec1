//! What a decoder leaves of a packet: it stands in the packet's buffer, in place of the packet.
ghost use Rattle.std.specs.Prelude.{◌≤◌};

use packet_headers::{Decoded, Fault, Flow, Ports, Protocols};
use std::net::{IpAddr, Ipv4Addr, Ipv6Addr};

/// How many bytes a note has. No buffer of a packet has fewer.
pub const NOTE: usize = 44;

// The bytes of an address; those of version 4 stand in front.
fn address_bytes(address: IpAddr) -> [u8; 16] {
    match address {
        IpAddr::V4(address) => {
            let [a, b, c, d] = address.octets();
            [a, b, c, d, 0, 0, 0, 0, 0, 0, 0, 0, 0, 0, 0, 0]
        }
        IpAddr::V6(address) => address.octets(),
    }
}

fn fault_number(fault: Option<Fault>) -> u8 {
    match fault {
        None => 0,
        Some(Fault::Cut) => 1,
        Some(Fault::Short) => 2,
        Some(Fault::Version) => 3,
        Some(Fault::HeaderLength) => 4,
        Some(Fault::Length) => 5,
    }
}

fn fault_of(number: u8) -> Option<Fault> {
    match number {
        1 => Some(Fault::Cut),
        2 => Some(Fault::Short),
        3 => Some(Fault::Version),
        4 => Some(Fault::HeaderLength),
        5 => Some(Fault::Length),
        _ => None,
    }
}

// The address whose bytes begin at this place.
fn address_at(bytes: &[u8; NOTE], at: usize, is_of_4: bool) -> IpAddr
    requires { at ≤ 28 }
{
    if is_of_4 {
        return IpAddr::V4(Ipv4Addr::new(bytes[at], bytes[at + 1], bytes[at + 2], bytes[at + 3]));
    }
    let mut octets = [0; 16];
    octets.copy_from_slice(&bytes[at..at + 16]);
    IpAddr::V6(Ipv6Addr::from_octets(octets))
}

fn word_at(bytes: &[u8; NOTE], at: usize) -> u16
    requires { at ≤ 32 }
{
    u16::from_le_bytes([bytes[at], bytes[at + 1]])
}

// What byte 5 says of the flow: there is none, or of which version its addresses are, and whether it has ports.
const OF_4: u8 = 4;

const OF_6: u8 = 6;

const WITH_PORTS: u8 = 16;

/// What is known of a packet, and how many of its bytes the buffer had.
#[derive(Clone, Copy, Debug, PartialEq, Eq)]
pub struct Note {
    pub kept: u16,
    pub decoded: Decoded,
}

impl Note {
    /// Writes it in front of these bytes, where there is room.
    pub fn write(&self, bytes: &mut [u8]) {
        let Some(front) = bytes.first_chunk_mut::<NOTE>() else {
            return;
        };
        front[..2].copy_from_slice(&self.kept.to_le_bytes());
        front[2..4].copy_from_slice(&self.decoded.protocols.bits.to_le_bytes());
        front[4] = fault_number(self.decoded.fault);
        front[5] = 0;
        if let Some(flow) = &self.decoded.flow {
            write_flow(front, flow);
        }
    }

    /// Reads one, if there are as many bytes.
    pub fn read(bytes: &[u8]) -> Option<Note> {
        let bytes = bytes.first_chunk::<NOTE>()?;
        let decoded = Decoded {
            protocols: Protocols {
                bits: word_at(bytes, 2),
            },
            flow: read_flow(bytes),
            fault: fault_of(bytes[4]),
        };
        Some(Note {
            kept: word_at(bytes, 0),
            decoded,
        })
    }
}

fn write_flow(bytes: &mut [u8; NOTE], flow: &Flow) {
    bytes[5] = if flow.source.is_ipv4() { OF_4 } else { OF_6 };
    bytes[6] = flow.protocol;
    if let Some(ports) = flow.ports {
        bytes[5] |= WITH_PORTS;
        bytes[8..10].copy_from_slice(&ports.source.to_le_bytes());
        bytes[10..12].copy_from_slice(&ports.destination.to_le_bytes());
    }
    bytes[12..28].copy_from_slice(&address_bytes(flow.source));
    bytes[28..44].copy_from_slice(&address_bytes(flow.destination));
}

fn read_flow(bytes: &[u8; NOTE]) -> Option<Flow> {
    let about = bytes[5];
    if about == 0 {
        return None;
    }
    let is_of_4 = about % WITH_PORTS == OF_4;
    let ports = if about >= WITH_PORTS {
        Some(Ports {
            source: word_at(bytes, 8),
            destination: word_at(bytes, 10),
        })
    } else {
        None
    };
    Some(Flow {
        source: address_at(bytes, 12, is_of_4),
        destination: address_at(bytes, 28, is_of_4),
        protocol: bytes[6],
        ports,
    })
}
