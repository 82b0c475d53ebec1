//! All layers of a packet.
ghost use Rattle.std.specs.Prelude.{◌≡◌, ◌<◌, length, Some};
ghost use Rattle.packet_headers.specs.Layers.{IsCutIfSaid};
ghost use Rattle.packet_headers.specs.declared.layer.Fault.TheVariants.{Cut};

use crate::arp::Arp;
use crate::ethernet::{Ethernet, VlanTag};
use crate::flow::{Flow, Ports};
use crate::ipv4::Ipv4;
use crate::ipv6::{Extension, ExtensionKind, Ipv6, Place};
use crate::layer::{Fault, Layer};
use crate::protocol::{Protocol, Protocols};
use crate::transport::{icmp, icmpv6, tcp, udp};
use std::net::IpAddr;

/// What the packets of a capture begin with.
#[derive(Clone, Copy, Debug, PartialEq, Eq)]
pub enum LinkType {
    /// The frame of an Ethernet.
    Ethernet,
    /// The header of an IP packet, of version 4 or 6.
    RawIp,
}

impl LinkType {
    /// The link type of this number of tcpdump's list, if it is known here.
    pub fn from_number(number: u32) -> Option<LinkType> {
        match number {
            1 => Some(LinkType::Ethernet),
            12 | 14 | 101 | 228 | 229 => Some(LinkType::RawIp),
            _ => None,
        }
    }
}

/// What is known of a packet.
#[derive(Clone, Copy, Debug, PartialEq, Eq)]
pub struct Decoded {
    /// The protocols whose headers could be read.
    pub protocols: Protocols,
    /// Where it goes, if it is an IP packet.
    pub flow: Option<Flow>,
    /// Why no further header could be read, if something is wrong.
    pub fault: Option<Fault>,
}

// No frame is read that has more tags, one behind the other.
const MOST_TAGS: usize = 8;

// No IPv6 packet is read that has more extensions.
const MOST_EXTENSIONS: usize = 32;

/// Reads all headers of a packet.
///
/// It is counted under each protocol whose header could be read. A frame with more than eight tags counts
/// as [`Protocol::OtherNetwork`], a packet with more than 32 extensions as [`Protocol::OtherTransport`]. A
/// packet that was captured whole is never said to be cut.
pub fn decode(link: LinkType, packet: Layer<'_>) -> Decoded
    ensures { result.fault ≡ Some Cut → length packet.entry.bytes.now < packet.entry.size }
{
    let mut decoded = Decoded {
        protocols: Protocols::NONE,
        flow: None,
        fault: None,
    };
    let ended = match link {
        LinkType::Ethernet => frame(&mut decoded, packet),
        LinkType::RawIp => any_ip(&mut decoded, packet),
    };
    decoded.fault = ended.err();
    decoded
}

fn is_tag(kind: u16) -> bool {
    matches!(kind, 0x8100 | 0x88a8 | 0x9100)
}

fn frame(decoded: &mut Decoded, packet: Layer<'_>) -> Result<(), Fault>
    ensures { IsCutIfSaid packet.entry result }
{
    let header = Ethernet::read(packet)?;
    decoded.protocols.insert(Protocol::Ethernet);
    let mut kind = header.kind;
    let mut payload = header.payload;
    for _ in 0..MOST_TAGS {
        if !is_tag(kind) {
            break;
        }
        let tag = VlanTag::read(payload)?;
        decoded.protocols.insert(Protocol::Vlan);
        kind = tag.kind;
        payload = tag.payload;
    }
    network(decoded, kind, payload)
}

// What a frame of this kind carries.
fn network(decoded: &mut Decoded, kind: u16, layer: Layer<'_>) -> Result<(), Fault>
    ensures { IsCutIfSaid layer.entry result }
{
    match kind {
        0x0800 => ip_of_4(decoded, layer),
        0x0806 => {
            let _message = Arp::read(layer)?;
            decoded.protocols.insert(Protocol::Arp);
            Ok(())
        }
        0x86dd => ip_of_6(decoded, layer),
        _ => {
            decoded.protocols.insert(Protocol::OtherNetwork);
            Ok(())
        }
    }
}

// A packet that tells its version itself.
fn any_ip(decoded: &mut Decoded, layer: Layer<'_>) -> Result<(), Fault>
    ensures { IsCutIfSaid layer.entry result }
{
    layer.has(1)?;
    match layer.byte(0) / 16 {
        6 => ip_of_6(decoded, layer),
        _ => ip_of_4(decoded, layer),
    }
}

fn ip_of_4(decoded: &mut Decoded, layer: Layer<'_>) -> Result<(), Fault>
    ensures { IsCutIfSaid layer.entry result }
{
    let header = Ipv4::read(layer)?;
    decoded.protocols.insert(Protocol::Ipv4);
    let mut flow = Flow {
        source: IpAddr::V4(header.source),
        destination: IpAddr::V4(header.destination),
        protocol: header.protocol,
        ports: None,
    };
    let place = Place {
        offset: header.offset,
        has_more: header.has_more,
    };
    let ended = carried(&mut decoded.protocols, &mut flow, place, header.payload);
    decoded.flow = Some(flow);
    ended
}

fn ip_of_6(decoded: &mut Decoded, layer: Layer<'_>) -> Result<(), Fault>
    ensures { IsCutIfSaid layer.entry result }
{
    let header = Ipv6::read(layer)?;
    decoded.protocols.insert(Protocol::Ipv6);
    let mut flow = Flow {
        source: IpAddr::V6(header.source),
        destination: IpAddr::V6(header.destination),
        protocol: header.next,
        ports: None,
    };
    let ended = extended(&mut decoded.protocols, &mut flow, header.payload);
    decoded.flow = Some(flow);
    ended
}

// The extensions of an IPv6 packet, and what it carries. The flow's protocol is what follows.
fn extended(protocols: &mut Protocols, flow: &mut Flow, layer: Layer<'_>) -> Result<(), Fault>
    ensures { IsCutIfSaid layer.entry result }
{
    let mut payload = layer;
    let mut place = Place {
        offset: 0,
        has_more: false,
    };
    for _ in 0..MOST_EXTENSIONS {
        let Some(kind) = ExtensionKind::from_number(flow.protocol) else {
            break;
        };
        if place.offset != 0 {
            break;
        }
        let header = Extension::read(kind, payload)?;
        flow.protocol = header.next;
        payload = header.payload;
        place = header.place.unwrap_or(place);
    }
    carried(protocols, flow, place, payload)
}

// What an IP packet carries. Of a packet that was split the first fragment alone has a header of it.
fn carried(
    protocols: &mut Protocols,
    flow: &mut Flow,
    place: Place,
    layer: Layer<'_>,
) -> Result<(), Fault>
    ensures { IsCutIfSaid layer.entry result }
{
    if place.has_more || place.offset != 0 {
        protocols.insert(Protocol::Fragment);
    }
    if place.offset != 0 {
        return Ok(());
    }
    let protocol = match flow.protocol {
        1 => {
            icmp(layer)?;
            Protocol::Icmp
        }
        6 => {
            flow.ports = Some(tcp(layer)?);
            Protocol::Tcp
        }
        17 => {
            flow.ports = Some(udp(layer, !place.has_more)?);
            Protocol::Udp
        }
        58 => {
            icmpv6(layer)?;
            Protocol::Icmpv6
        }
        _ => Protocol::OtherTransport,
    };
    protocols.insert(protocol);
    Ok(())
}
