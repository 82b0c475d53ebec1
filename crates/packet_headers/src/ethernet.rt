//! Ethernet frames, and the tags of virtual networks in them.
ghost use Rattle.std.specs.Prelude.{◌≡◌, ◌%◌, IfOk, IfErr};
ghost use Rattle.packet_headers.specs.Layers.{IsBehind, IsUnread, word_at};

use crate::layer::{Fault, Layer};

/// The frame of an Ethernet, with two addresses of six bytes before its kind.
#[derive(Clone, Copy, Debug)]
pub struct Ethernet<'a> {
    /// What it carries, by the numbers of IEEE 802; below 1,536 it is a length, as 802.3 has it.
    pub kind: u16,
    pub payload: Layer<'a>,
}

impl<'a> Ethernet<'a> {
    /// Reads the header of a frame.
    pub fn read(layer: Layer<'a>) -> Result<Ethernet<'a>, Fault>
        ensures kind { IfOk result (λ h. h.kind ≡ word_at layer.entry.bytes.now 12) }
        ensures payload { IfOk result (λ h. IsBehind 14 layer.entry h.payload) }
        ensures why { IfErr result (IsUnread 14 layer.entry) }
    {
        layer.has(14)?;
        Ok(Ethernet {
            kind: layer.word(12),
            payload: layer.behind(14),
        })
    }
}

/// The tag of a virtual network, behind a frame's header or another tag.
#[derive(Clone, Copy, Debug)]
pub struct VlanTag<'a> {
    /// The number of the network.
    pub network: u16,
    /// What follows, as [`Ethernet::kind`].
    pub kind: u16,
    pub payload: Layer<'a>,
}

impl<'a> VlanTag<'a> {
    /// Reads a tag.
    pub fn read(layer: Layer<'a>) -> Result<VlanTag<'a>, Fault>
        ensures network { IfOk result (λ h. h.network ≡ word_at layer.entry.bytes.now 0 % 4096) }
        ensures kind { IfOk result (λ h. h.kind ≡ word_at layer.entry.bytes.now 2) }
        ensures payload { IfOk result (λ h. IsBehind 4 layer.entry h.payload) }
        ensures why { IfErr result (IsUnread 4 layer.entry) }
    {
        layer.has(4)?;
        Ok(VlanTag {
            network: layer.word(0) % 4096,
            kind: layer.word(2),
            payload: layer.behind(4),
        })
    }
}
