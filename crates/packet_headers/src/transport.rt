//! What an IP packet carries: TCP (RFC 9293), UDP (RFC 768), and the messages of ICMP (RFC 792, RFC 4443).
ghost use Rattle.std.specs.Prelude.{◌≡◌, ◌↔◌, ◌<◌, ◌≤◌, IfOk, IfErr, IsOk, length};
ghost use Rattle.packet_headers.specs.Headers.{ArePorts, IsTcpFault, IsUdpFault};
ghost use Rattle.packet_headers.specs.Layers.{IsUnread};

use crate::flow::Ports;
use crate::layer::{Fault, Layer};

// The two numbers that TCP and UDP begin with.
fn ports(layer: Layer<'_>) -> Ports
    requires { 3 < length layer.bytes.now }
    ensures { ArePorts layer.entry result }
{
    Ports {
        source: layer.word(0),
        destination: layer.word(2),
    }
}

/// Reads the ports of a TCP segment, whose header has to be whole, with its options.
pub fn tcp(layer: Layer<'_>) -> Result<Ports, Fault>
    ensures value { IfOk result (ArePorts layer.entry) }
    ensures why { IfErr result (IsTcpFault layer.entry) }
{
    layer.has(20)?;
    let header = 4 * usize::from(layer.byte(12) / 16);
    if header < 20 {
        return Err(Fault::HeaderLength);
    }
    layer.has(header)?;
    Ok(ports(layer))
}

/// Reads the ports of a UDP datagram. Where it is whole, which a packet's first fragment isn't, it may not
/// be longer than the layer.
pub fn udp(layer: Layer<'_>, is_whole: bool) -> Result<Ports, Fault>
    ensures value { IfOk result (ArePorts layer.entry) }
    ensures why { IfErr result (IsUdpFault layer.entry is_whole) }
{
    layer.has(8)?;
    let size = usize::from(layer.word(4));
    if size < 8 || is_whole && size > layer.size {
        return Err(Fault::Length);
    }
    Ok(ports(layer))
}

/// Looks at the header of an ICMP message: it has eight bytes.
pub fn icmp(layer: Layer<'_>) -> Result<(), Fault>
    ensures captured { IsOk result ↔ (8 ≤ length layer.entry.bytes.now) }
    ensures why { IfErr result (IsUnread 8 layer.entry) }
{
    layer.has(8)
}

/// Looks at the header of an ICMPv6 message: it has four bytes.
pub fn icmpv6(layer: Layer<'_>) -> Result<(), Fault>
    ensures captured { IsOk result ↔ (4 ≤ length layer.entry.bytes.now) }
    ensures why { IfErr result (IsUnread 4 layer.entry) }
{
    layer.has(4)
}
