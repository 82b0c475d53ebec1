//! The header of IPv4 (RFC 791).
ghost use Rattle.std.specs.Prelude.{◌≡◌, ◌+◌, ◌<◌, IfOk, IfErr, length};
ghost use Rattle.std.specs.Net.Addr.{ipv4_octets};
ghost use Rattle.packet_headers.specs.Headers.{IsIpv4, IsIpv4Fault, octets_at};

use crate::layer::{Fault, Layer};
use std::net::Ipv4Addr;

/// The header of an IPv4 packet.
#[derive(Clone, Copy, Debug)]
pub struct Ipv4<'a> {
    /// What it carries, by the numbers of IANA.
    pub protocol: u8,
    pub source: Ipv4Addr,
    pub destination: Ipv4Addr,
    /// Where its payload stood in the packet that was split, in units of eight bytes: 0 where it is none or
    /// the first fragment.
    pub offset: u16,
    /// Whether further fragments follow.
    pub has_more: bool,
    /// What lies behind the header and its options, up to the packet's length.
    pub payload: Layer<'a>,
}

// The four bytes from this place on.
fn address(layer: Layer<'_>, at: usize) -> Ipv4Addr
    requires { at + 3 < length layer.bytes.now }
    ensures { ipv4_octets result ≡ octets_at layer.entry.bytes.now at }
{
    Ipv4Addr::new(
        layer.byte(at),
        layer.byte(at + 1),
        layer.byte(at + 2),
        layer.byte(at + 3),
    )
}

impl<'a> Ipv4<'a> {
    /// Reads the header, whose options it passes over. What lies behind the packet's length, as the padding of a
    /// small frame, is no part of the payload. A length of 0 stands for all that there is: packets that the
    /// network card is to split have it.
    pub fn read(layer: Layer<'a>) -> Result<Ipv4<'a>, Fault>
        ensures value { IfOk result (IsIpv4 layer.entry) }
        ensures why { IfErr result (IsIpv4Fault layer.entry) }
    {
        layer.has(20)?;
        let first = layer.byte(0);
        if first / 16 != 4 {
            return Err(Fault::Version);
        }
        let header = 4 * usize::from(first % 16);
        if header < 20 {
            return Err(Fault::HeaderLength);
        }
        layer.has(header)?;
        let size = match usize::from(layer.word(2)) {
            0 => layer.size,
            size => size,
        };
        if size < header || size > layer.size {
            return Err(Fault::Length);
        }
        let fragment = layer.word(6);
        Ok(Ipv4 {
            protocol: layer.byte(9),
            source: address(layer, 12),
            destination: address(layer, 16),
            offset: fragment % 8192,
            has_more: fragment / 8192 % 2 == 1,
            payload: layer.front(size).behind(header),
        })
    }
}
