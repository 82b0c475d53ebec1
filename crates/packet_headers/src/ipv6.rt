//! The header of IPv6 and its extensions (RFC 8200).
ghost use Rattle.std.specs.Prelude.{◌≡◌, ◌+◌, ◌<◌, IfOk, IfErr, length};
ghost use Rattle.std.specs.Net.Addr.{ipv6_segments};
ghost use Rattle.packet_headers.specs.Headers.{IsExtension, IsExtensionFault, IsIpv6, IsIpv6Fault, IsPlace, extension_size, segments_at};

use crate::layer::{Fault, Layer};
use std::net::Ipv6Addr;

/// The header of an IPv6 packet.
#[derive(Clone, Copy, Debug)]
pub struct Ipv6<'a> {
    /// What follows: an extension, or what the packet carries, by the numbers of IANA.
    pub next: u8,
    pub source: Ipv6Addr,
    pub destination: Ipv6Addr,
    /// What lies behind the header, up to the packet's length.
    pub payload: Layer<'a>,
}

// The sixteen bytes from this place on.
fn address(layer: Layer<'_>, at: usize) -> Ipv6Addr
    requires { at + 15 < length layer.bytes.now }
    ensures { ipv6_segments result ≡ segments_at layer.entry.bytes.now at }
{
    Ipv6Addr::new(
        layer.word(at),
        layer.word(at + 2),
        layer.word(at + 4),
        layer.word(at + 6),
        layer.word(at + 8),
        layer.word(at + 10),
        layer.word(at + 12),
        layer.word(at + 14),
    )
}

impl<'a> Ipv6<'a> {
    /// Reads the header. What lies behind the packet's length is no part of the payload. A packet of more than
    /// 65,575 bytes, which has a length of 0, can't be read.
    pub fn read(layer: Layer<'a>) -> Result<Ipv6<'a>, Fault>
        ensures value { IfOk result (IsIpv6 layer.entry) }
        ensures why { IfErr result (IsIpv6Fault layer.entry) }
    {
        layer.has(40)?;
        if layer.byte(0) / 16 != 6 {
            return Err(Fault::Version);
        }
        let size = 40 + usize::from(layer.word(4));
        if size > layer.size {
            return Err(Fault::Length);
        }
        Ok(Ipv6 {
            next: layer.byte(6),
            source: address(layer, 8),
            destination: address(layer, 24),
            payload: layer.front(size).behind(40),
        })
    }
}

/// How the length of an extension is written.
#[derive(Clone, Copy, Debug, PartialEq, Eq)]
pub enum ExtensionKind {
    /// The place of a fragment: eight bytes.
    Fragment,
    /// Authentication (RFC 4302), in units of four bytes.
    Authentication,
    /// Options, routes, mobility, host identity and shims, in units of eight bytes.
    Other,
}

impl ExtensionKind {
    /// The kind of the extension of this number of IANA. There is none where what follows is no extension,
    /// or is encrypted.
    pub fn from_number(number: u8) -> Option<ExtensionKind> {
        match number {
            44 => Some(ExtensionKind::Fragment),
            51 => Some(ExtensionKind::Authentication),
            0 | 43 | 60 | 135 | 139 | 140 => Some(ExtensionKind::Other),
            _ => None,
        }
    }

    // How many bytes it has, where its length is written so.
    fn size(self, length: u8) -> usize
        ensures { result ≡ extension_size self length }
    {
        match self {
            ExtensionKind::Fragment => 8,
            ExtensionKind::Authentication => 4 * (usize::from(length) + 2),
            ExtensionKind::Other => 8 * (usize::from(length) + 1),
        }
    }
}

/// Where a fragment stood in the packet that was split.
#[derive(Clone, Copy, Debug, PartialEq, Eq)]
pub struct Place {
    /// In units of eight bytes: 0 for the first fragment.
    pub offset: u16,
    /// Whether further fragments follow.
    pub has_more: bool,
}

/// An extension of an IPv6 header.
#[derive(Clone, Copy, Debug)]
pub struct Extension<'a> {
    /// What follows, as [`Ipv6::next`].
    pub next: u8,
    /// That of a fragment's extension.
    pub place: Option<Place>,
    pub payload: Layer<'a>,
}

impl<'a> Extension<'a> {
    /// Reads an extension of this kind.
    pub fn read(kind: ExtensionKind, layer: Layer<'a>) -> Result<Extension<'a>, Fault>
        ensures value { IfOk result (IsExtension kind layer.entry) }
        ensures why { IfErr result (IsExtensionFault kind layer.entry) }
    {
        layer.has(8)?;
        let size = kind.size(layer.byte(1));
        layer.has(size)?;
        Ok(Extension {
            next: layer.byte(0),
            place: place_in(kind, layer.word(2)),
            payload: layer.behind(size),
        })
    }
}

// What this word says in an extension of this kind.
fn place_in(kind: ExtensionKind, word: u16) -> Option<Place>
    ensures { IsPlace kind word result }
{
    if kind == ExtensionKind::Fragment {
        Some(Place {
            offset: word / 8,
            has_more: word % 2 == 1,
        })
    } else {
        None
    }
}
